// Closing candidates and lowering the bound.
ghost use Rattle.std.specs.Prelude.{◌≡◌, ℕ, true, None, OnErr};
ghost use Rattle.plan.specs.Closing.{close_refusal, with_closed, close_answer, close_after};
ghost use Rattle.plan.specs.Closing.{lower_refusal, with_bound, lower_answer, lower_after};
ghost use Rattle.plan.specs.Invariant.{Sound};
ghost use Rattle.plan.specs.Keeping.{Keeps};
ghost use Rattle.plan.specs.Layout.{is_there};
ghost use Rattle.plan.specs.Plans.{at_ceiling};
ghost use Rattle.plan.specs.Refusing.{Finds};
ghost use Rattle.plan.specs.Weights.{held_for, weight};

use crate::Plan;
use crate::layout::candidate_place;
use crate::refusals::Refusal;
use crate::tables::Tables;
use scale::Scale;

impl Tables {
    // Marks a candidate closed.
    fn put_closed(&mut self, entry: usize, candidate: usize)
        requires sound { Sound self.old }
        requires there { is_there self.old entry candidate ≡ true }
        ensures closes_it { self.new ≡ with_closed self.old entry candidate }
    {
        self.entries.marks[candidate_place(entry, candidate)] = false;
    }
}

impl<S: Scale> Plan<S> {
    // The join of two penalties at the plan's ceiling.
    fn join(&self, a: u32, b: u32) -> u32
        ensures is_the_join { result ≡ at_ceiling S.join self.now a b }
    {
        self.scale.join(self.tables.limits.ceiling, a, b)
    }

    // The amount in hand for a candidate.
    fn held_for(&self, entry: usize, candidate: usize) -> u32
        ensures is_the_amount { result ≡ held_for self.now.tables.hand entry candidate }
    {
        match self.tables.hand {
            Some(hand) if hand.entry == entry && hand.candidate == candidate => hand.amount,
            _ => 0,
        }
    }

    // The own penalty of a candidate, joined with an amount in hand for it.
    fn weight(&self, entry: usize, candidate: usize) -> u32
        requires there { is_there self.now.tables entry candidate ≡ true }
        ensures is_its_weight { result ≡ weight (at_ceiling S.join self.now) self.now.tables entry
            candidate }
    {
        let own = self.tables.entries.own[candidate_place(entry, candidate)];
        self.join(own, self.held_for(entry, candidate))
    }

    // A candidate may be closed.
    fn check_close(&self, entry: usize, candidate: usize) -> Result<(), Refusal>
        ensures is_the_first_refusal { Finds (close_refusal (at_ceiling S.join self.now)
            self.now.tables entry candidate) result }
    {
        if self.is_open(entry, candidate) != Some(true) {
            return Err(Refusal::Absent);
        }
        let weight = self.weight(entry, candidate);
        if self.join(self.tables.limits.floor, weight) >= self.tables.limits.bound {
            Ok(())
        } else {
            Err(Refusal::NotAllowed)
        }
    }

    // Closes a candidate when the floor joined with its weight is at least the bound.
    #[tactic(auto, using(crate::proofs::Keepings::keeps_refl))]
    pub fn close(&mut self, entry: usize, candidate: usize) -> Result<(), Refusal>
        ensures answers { result ≡ close_answer (at_ceiling S.join self.old) self.old.tables entry
            candidate }
        ensures leaves { self.new.tables
            ≡ close_after (at_ceiling S.join self.old) self.old.tables entry candidate }
        ensures refusal_changes_nothing { OnErr result (self.new.tables ≡ self.old.tables) }
        ensures keeps_its_scale { self.new.scale ≡ self.old.scale }
        ensures keeps_the_hand { self.new.tables.hand ≡ self.old.tables.hand }
        ensures keeps_every_cheap_tuning { Keeps (at_ceiling S.join self.old) self.old.tables
            self.new.tables }
    {
        self.check_close(entry, candidate)?;
        self.tables.put_closed(entry, candidate);
        Ok(())
    }

    // A bound may be put in place of the present one.
    fn check_lower(&self, bound: u32) -> Result<(), Refusal>
        ensures is_the_first_refusal { Finds (lower_refusal self.now.tables bound) result }
    {
        if (1..=self.tables.limits.bound).contains(&bound) {
            Ok(())
        } else {
            Err(Refusal::BoundOutOfRange)
        }
    }

    // Replaces the bound by a number from 1 to the bound.
    #[tactic(auto, using(crate::proofs::Keepings::keeps_refl))]
    pub fn lower(&mut self, bound: u32) -> Result<(), Refusal>
        ensures answers { result ≡ lower_answer self.old.tables bound }
        ensures leaves { self.new.tables ≡ lower_after self.old.tables bound }
        ensures refusal_changes_nothing { OnErr result (self.new.tables ≡ self.old.tables) }
        ensures keeps_its_scale { self.new.scale ≡ self.old.scale }
        ensures keeps_the_hand { self.new.tables.hand ≡ self.old.tables.hand }
        ensures keeps_every_cheap_tuning { Keeps (at_ceiling S.join self.old) self.old.tables
            self.new.tables }
    {
        self.check_lower(bound)?;
        self.tables.limits.bound = bound;
        Ok(())
    }
}
