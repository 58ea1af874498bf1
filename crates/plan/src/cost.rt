// The cost of a tuning.
ghost use Rattle.std.specs.Prelude.{◌≡◌, ◌↔◌, min, is_ok, IfOk, IsTrue, sum};
ghost use Rattle.scale.specs.Ceilings.{clamped};
ghost use Rattle.scale.specs.Sums.{sum_join};
ghost use Rattle.scale.specs.Worsts.{worst_join, largest};
ghost use Rattle.plan.specs.Costs.{parts, cost_answer};
ghost use Rattle.plan.specs.Plans.{at_ceiling};
ghost use Rattle.plan.specs.Tunings.{OpenTuning};

use crate::Plan;
use crate::refusals::Refusal;
use scale::Scale;
use scale::joined::joined_penalty;

impl<S: Scale> Plan<S> {
    // What an open tuning costs: the floor, its own penalties, its cell of every pair and any
    // amount in hand for its candidates, joined. Anything but an open tuning is refused.
    #[tactic(auto, using(crate::proofs::OpenTunings::open_tuning, crate::proofs::OpenTunings::is_open_from))]
    pub fn cost(&self, tuning: &[usize]) -> Result<u32, Refusal>
        ensures answers { result ≡ cost_answer (at_ceiling S.join self.now) self.now.tables
            tuning.now }
        ensures accepts_exactly_open_tunings { IsTrue (is_ok result) ↔
            (OpenTuning self.now.tables tuning.now) }
        ensures capped_sum_on_the_sum_scale { IfOk result
            (λ v. S.join self.now.scale ≡ clamped sum_join
            → v ≡ min self.now.tables.limits.ceiling (sum (parts self.now.tables tuning.now))) }
        ensures largest_on_the_worst_scale { IfOk result
            (λ v. S.join self.now.scale ≡ clamped worst_join
            → v ≡ min self.now.tables.limits.ceiling (largest (parts self.now.tables tuning.now))) }
    {
        if !self.is_open_tuning(tuning) {
            return Err(Refusal::Absent);
        }
        let parts = self.gather(tuning);
        Ok(joined_penalty(&self.scale, self.tables.limits.ceiling, parts.as_slice()))
    }
}
