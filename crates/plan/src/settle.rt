// Settling a plan by sweeps.
ghost use Rattle.std.specs.Prelude.{◌≡◌, ◌≤◌, true, IfOk, OnErr};
ghost use Rattle.plan.specs.Keeping.{Keeps};
ghost use Rattle.plan.specs.Plans.{at_ceiling};
ghost use Rattle.plan.specs.Refusing.{Finds};
ghost use Rattle.plan.specs.Settling.{unchanged, as_settled, after_sweeps, settle_refusal};
ghost use Rattle.plan.specs.Settling.{settle_answer, settle_after};
ghost use Rattle.plan.specs.Sweeps.{sweep as swept_once};

use crate::Plan;
use crate::refusals::Refusal;
use crate::tables::{Settled, Tables};
use scale::Scale;

// The most sweeps that a call makes.
const MOST_SWEEPS: u32 = 16;

// A number of sweeps is allowed.
fn check_settle(sweeps: u32) -> Result<(), Refusal>
    ensures is_the_first_refusal { Finds (settle_refusal sweeps) result }
{
    if sweeps > MOST_SWEEPS {
        Err(Refusal::TooManySweeps)
    } else {
        Ok(())
    }
}

impl Tables {
    // Whether no number and no mark that a sweep may change differs from what it was. The derived
    // equality would compare what stays, too, and would be this answer only by a further proof.
    fn is_unchanged(&self, before: &Tables) -> bool
        ensures is_so { result ≡ unchanged before.now self.now }
    {
        before.limits.floor == self.limits.floor
            && before.entries.own == self.entries.own
            && before.entries.marks == self.entries.marks
            && before.pairs.cells == self.pairs.cells
    }
}

impl<S: Scale> Plan<S> {
    // Up to a number of sweeps, until one changes nothing.
    fn settled(&mut self, sweeps: u32) -> Settled
        requires few { sweeps ≤ 16 }
        ensures answers { result ≡ as_settled
            (after_sweeps (at_ceiling S.join self.old) (at_ceiling S.rest self.old)
            sweeps self.old.tables) }
        ensures leaves { self.new.tables
            ≡ (after_sweeps (at_ceiling S.join self.old) (at_ceiling S.rest self.old)
            sweeps self.old.tables).tables }
        ensures keeps_its_scale { self.new.scale ≡ self.old.scale }
        ensures keeps_the_hand { self.new.tables.hand ≡ self.old.tables.hand }
        ensures keeps_every_cheap_tuning { Keeps (at_ceiling S.join self.old) self.old.tables
            self.new.tables }
        ensures stable_where_a_sweep_changes_nothing { result.stable ≡ true
            → swept_once (at_ceiling S.join self.old) (at_ceiling S.rest self.old) self.new.tables
            ≡ self.new.tables }
    {
        for made in 0..sweeps {
            let before = self.tables;
            self.sweep();
            if self.tables.is_unchanged(&before) {
                return Settled {
                    sweeps: made + 1,
                    stable: true,
                };
            }
        }
        Settled {
            sweeps,
            stable: false,
        }
    }

    // Makes up to a number of sweeps, 16 at most, and stops after one that changed nothing. In a
    // sweep each pair in order moves the least of each row to the own penalty, each entry moves its
    // least own penalty to the floor, and each candidate that may be closed is closed.
    #[tactic(auto, using(crate::proofs::Keepings::keeps_refl))]
    pub fn settle(&mut self, sweeps: u32) -> Result<Settled, Refusal>
        ensures answers { result ≡ settle_answer (at_ceiling S.join self.old)
            (at_ceiling S.rest self.old)
            self.old.tables sweeps }
        ensures leaves { self.new.tables
            ≡ settle_after (at_ceiling S.join self.old) (at_ceiling S.rest self.old)
            self.old.tables sweeps }
        ensures refusal_changes_nothing { OnErr result (self.new.tables ≡ self.old.tables) }
        ensures keeps_its_scale { self.new.scale ≡ self.old.scale }
        ensures keeps_the_hand { self.new.tables.hand ≡ self.old.tables.hand }
        ensures keeps_every_cheap_tuning { Keeps (at_ceiling S.join self.old) self.old.tables
            self.new.tables }
        ensures stable_where_a_sweep_changes_nothing { IfOk result (λ settled. settled.stable ≡ true
            → swept_once (at_ceiling S.join self.old) (at_ceiling S.rest self.old) self.new.tables
            ≡ self.new.tables) }
    {
        check_settle(sweeps)?;
        Ok(self.settled(sweeps))
    }
}
