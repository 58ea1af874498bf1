// The joined penalty of a list.
ghost use Rattle.std.specs.Prelude.{◌≡◌};
ghost use Rattle.scale.specs.Joins.{joined, AnyOrderJoinsTo, CappedSumOnTheSumScale};
ghost use Rattle.scale.specs.Joins.{LargestOnTheWorstScale};

use crate::Scale;

// What a list of penalties comes to: from 0 on, one joined after another.
pub fn joined_penalty<S: Scale>(scale: &S, ceiling: u32, points: &[u32]) -> u32
    ensures joins_all_from_zero { result ≡ joined (S.join scale.now ceiling) points.now }
    ensures any_order_joins_to_the_same { AnyOrderJoinsTo result (S.join scale.now ceiling)
        points.now }
    ensures capped_sum_on_the_sum_scale { CappedSumOnTheSumScale result (S.join scale.now) ceiling
        points.now }
    ensures largest_on_the_worst_scale { LargestOnTheWorstScale result (S.join scale.now) ceiling
        points.now }
{
    let mut total: u32 = 0;
    for penalty in points {
        total = scale.join(ceiling, total, *penalty);
    }
    total
}
