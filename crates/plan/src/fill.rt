// Filling a plan.
ghost use Rattle.std.specs.Prelude.{◌≡◌, ◌↔◌, ℕ, List, IsOk, OnErr, OnOk};
ghost use Rattle.plan.specs.Costs.{cost};
ghost use Rattle.plan.specs.Fillable.{Fillable, ListedTuning, OpenAsListed, filled_cost};
ghost use Rattle.plan.specs.Filling.{fill_answer, fill_after};
ghost use Rattle.plan.specs.Histories.{Call, played, NoCheapTuningLost};

use crate::Plan;
use crate::lists::Lists;
use crate::records::PairRecord;
use crate::refusals::FillFault;
use scale::Scale;

impl<S: Scale> Plan<S> {
    // Fills an empty plan: `counts` has the number of candidates of each entry, `own` their own
    // penalties by entry and then candidate, and `pairs` the points of cells. Cells that are not
    // listed are 0, and everything is open. What a caller gives stays as it was, four values.
    pub fn fill(
        &mut self,
        ceiling: u32,
        counts: &[usize],
        own: &[u32],
        pairs: &[PairRecord],
    ) -> Result<(), FillFault>
        ensures answers { result
            ≡ fill_answer self.old.tables ceiling counts.now own.now pairs.now }
        ensures leaves { self.new.tables
            ≡ fill_after self.old.tables ceiling counts.now own.now pairs.now }
        ensures refusal_changes_nothing { OnErr result (self.new.tables ≡ self.old.tables) }
        ensures keeps_its_scale { self.new.scale ≡ self.old.scale }
        ensures accepts_exactly_what_is_fillable { IsOk result
            ↔ (Fillable self.old.tables ceiling counts.now own.now pairs.now) }
        ensures its_open_tunings_are_those_of_the_lists { OnOk result
            ((t : List ℕ) → OpenAsListed counts.now self.new.tables t) }
        ensures every_tuning_costs_its_filled_cost { OnOk result
            ((t : List ℕ) → ListedTuning counts.now t
            → cost (S.join self.new.scale ceiling) self.new.tables t
            ≡ filled_cost (S.join self.new.scale ceiling) counts.now own.now pairs.now t) }
        ensures no_calls_lose_a_cheap_tuning { OnOk result
            ((calls : List Call)
            → NoCheapTuningLost (S.join self.new.scale ceiling) counts.now own.now pairs.now
            (played (S.join self.new.scale ceiling) (S.rest self.new.scale ceiling)
            self.new.tables calls)) }
    {
        let lists = Lists {
            ceiling,
            counts,
            own,
            records: pairs,
        };
        self.tables.check_fill(&lists)?;
        self.tables = lists.tables();
        Ok(())
    }
}
