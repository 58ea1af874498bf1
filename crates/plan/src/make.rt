// A new plan.
ghost use Rattle.std.specs.Prelude.{◌≡◌, ℕ, List, []};
ghost use Rattle.plan.specs.Costs.{cost};
ghost use Rattle.plan.specs.Fresh.{empty_tables, new_tables};
ghost use Rattle.plan.specs.Tunings.{OpenTuning};

use crate::Plan;
use crate::tables::{Entries, Limits, Pairs, Tables};
use scale::Scale;

impl Tables {
    // Tables with no entries.
    pub(crate) fn empty(ceiling: u32) -> Tables
        ensures hold_nothing { result ≡ empty_tables ceiling }
    {
        Tables {
            entries: Entries {
                number: 0,
                counts: [0; 16],
                own: [0; 128],
                marks: [true; 128],
            },
            pairs: Pairs {
                number: 0,
                ends: [(0, 0); 24],
                cells: [0; 1536],
            },
            limits: Limits {
                floor: 0,
                ceiling,
                bound: ceiling,
            },
            hand: None,
        }
    }
}

impl<S: Scale> Plan<S> {
    // A plan with no entries, floor 0, ceiling 1 and bound 1.
    pub fn new(scale: S) -> Plan<S>
        ensures holds_nothing { result.tables ≡ new_tables }
        ensures has_the_scale { result.scale ≡ scale }
        ensures its_one_tuning_is_empty_and_costs_zero { (t : List ℕ)
            → OpenTuning result.tables t
            → (t ≡ []) × (cost (S.join scale result.tables.limits.ceiling) result.tables t ≡ 0) }
    {
        Plan {
            scale,
            tables: Tables::empty(1),
        }
    }
}
