// Sweeps: penalties move from rows to own penalties and on to the floor, and candidates that may be
// closed are closed.
ghost use Rattle.std.specs.Prelude.{◌≡◌, ℕ, ◌<◌, true};
ghost use Rattle.plan.specs.Invariant.{Sound};
ghost use Rattle.plan.specs.Layout.{is_there};
ghost use Rattle.plan.specs.Lifting.{CanAdjust, with_own_list};
ghost use Rattle.plan.specs.Plans.{at_ceiling, KeepsFrame};
ghost use Rattle.plan.specs.Rows.{Computes, is_at};
ghost use Rattle.plan.specs.Sweeps.{moved_to_own, row_to_own, rows_to_own, pair_to_own};
ghost use Rattle.plan.specs.Sweeps.{pairs_to_own, own_least, own_changed, moved_to_floor};
ghost use Rattle.plan.specs.Sweeps.{entry_to_floor, entries_to_floor, entry_closed, entries_closed};
ghost use Rattle.plan.specs.Sweeps.{sweep as swept_once};
ghost use Rattle.plan.specs.declared.place.Place.TheVariants.{Row};

use crate::Plan;
use crate::layout::candidate_place;
use crate::place::Place;
use crate::rows::{change_marked, least_marked};
use crate::tables::{Hand, Tables};
use scale::Scale;

impl Tables {
    // Takes an amount off each number of a row and joins it to the own penalty of its candidate.
    fn move_to_own<S: Scale>(&mut self, scale: &S, moved: Hand, pair: usize)
        requires can { CanAdjust self.old moved.entry moved.candidate (Row pair) }
        ensures moves_it { self.new ≡ moved_to_own (S.join scale.now self.old.limits.ceiling)
            (S.rest scale.now self.old.limits.ceiling)
            moved.amount moved.entry pair moved.candidate self.old }
    {
        self.take_off(scale, Place::Row(pair), moved);
        self.join_to(scale, Place::OwnPenalty, moved);
    }

    // Makes of each own penalty of the open candidates of an entry what `change` makes of it.
    fn change_own<F: Fn(u32) -> u32>(&mut self, entry: usize, change: F)
        requires sound { Sound self.old }
        requires there { entry < self.old.entries.number }
        requires changes { F.IsAlwaysCallable change }
        ensures changes_them { (by : ℕ → ℕ) → Computes (F.post change) by
            → self.new ≡ with_own_list self.old (own_changed by self.old entry) }
    {
        // The marks alone are copied: a field of the entries cannot be lent beside another one here.
        let marks = self.entries.marks;
        let start = candidate_place(entry, 0);
        change_marked(
            &marks[start..start + self.entries.counts[entry]],
            &mut self.entries.own,
            |c| candidate_place(entry, c),
            change,
        );
    }

    // Takes an amount off them and joins it to the floor.
    fn move_to_floor<S: Scale>(&mut self, scale: &S, amount: u32, entry: usize)
        requires sound { Sound self.old }
        requires there { entry < self.old.entries.number }
        ensures moves_it { self.new ≡ moved_to_floor (S.join scale.now self.old.limits.ceiling)
            (S.rest scale.now self.old.limits.ceiling) amount entry self.old }
    {
        let ceiling = self.limits.ceiling;
        self.change_own(entry, |points| scale.rest(ceiling, points, amount));
        self.limits.floor = scale.join(ceiling, self.limits.floor, amount);
    }
}

impl<S> Plan<S> {
    // The least own penalty of the open candidates of an entry, 0 where none is open.
    fn own_least(&self, entry: usize) -> u32
        requires there { entry < self.now.tables.entries.number }
        ensures is_the_least { result ≡ own_least self.now.tables entry }
    {
        least_marked(self.tables.entries.marks_of(entry), |c| {
            self.tables.entries.own[candidate_place(entry, c)]
        })
    }
}

// The loops count candidates, entries and pairs, which have no other name than their number. Each
// step changes the plan, so no list of them is lent, and asks for what the plan then holds: neither
// an iterator nor one function for all five, with a closure for the step, would be plainer. Each
// step promises the frame, on which the next one stands. Of entry, pair and candidate no two go
// together in all of them.
impl<S: Scale> Plan<S> {
    // Moves the least of a row to the own penalty, if the candidate is open.
    fn row_to_own(&mut self, entry: usize, pair: usize, candidate: usize)
        requires there { is_there self.old.tables entry candidate ≡ true }
        requires at { is_at self.old.tables entry pair ≡ true }
        ensures moves_it { self.new.tables
            ≡ row_to_own (at_ceiling S.join self.old) (at_ceiling S.rest self.old)
            entry pair candidate self.old.tables }
        ensures keeps_its_frame { KeepsFrame self.old self.new }
    {
        if self.tables.entries.marks[candidate_place(entry, candidate)] {
            let least = Hand {
                entry,
                candidate,
                amount: self.row_least(entry, candidate, pair),
            };
            self.tables.move_to_own(&self.scale, least, pair);
        }
    }

    // For each candidate of an entry of a pair.
    fn rows_to_own(&mut self, e: usize, pair: usize)
        requires there { e < self.old.tables.entries.number }
        requires at { is_at self.old.tables e pair ≡ true }
        ensures moves_them { self.new.tables
            ≡ rows_to_own (at_ceiling S.join self.old) (at_ceiling S.rest self.old)
            e pair self.old.tables }
        ensures keeps_its_frame { KeepsFrame self.old self.new }
    {
        for candidate in 0..self.tables.entries.counts[e] {
            self.row_to_own(e, pair, candidate);
        }
    }

    // For the first entry of a pair and then for the second.
    fn pair_to_own(&mut self, pair: usize)
        requires there { pair < self.old.tables.pairs.number }
        ensures moves_them { self.new.tables
            ≡ pair_to_own (at_ceiling S.join self.old) (at_ceiling S.rest self.old)
            pair self.old.tables }
        ensures keeps_its_frame { KeepsFrame self.old self.new }
    {
        let (first, second) = self.tables.pairs.ends[pair];
        self.rows_to_own(first, pair);
        self.rows_to_own(second, pair);
    }

    // In each pair.
    fn pairs_to_own(&mut self)
        ensures moves_them { self.new.tables
            ≡ pairs_to_own (at_ceiling S.join self.old) (at_ceiling S.rest self.old)
            self.old.tables }
        ensures keeps_its_frame { KeepsFrame self.old self.new }
    {
        for pair in 0..self.tables.pairs.number {
            self.pair_to_own(pair);
        }
    }

    // Moves the least own penalty of the open candidates of an entry to the floor.
    fn entry_to_floor(&mut self, entry: usize)
        requires there { entry < self.old.tables.entries.number }
        ensures moves_it { self.new.tables
            ≡ entry_to_floor (at_ceiling S.join self.old) (at_ceiling S.rest self.old)
            entry self.old.tables }
        ensures keeps_its_frame { KeepsFrame self.old self.new }
    {
        let least = self.own_least(entry);
        self.tables.move_to_floor(&self.scale, least, entry);
    }

    // For each entry.
    fn entries_to_floor(&mut self)
        ensures moves_them { self.new.tables
            ≡ entries_to_floor (at_ceiling S.join self.old) (at_ceiling S.rest self.old)
            self.old.tables }
        ensures keeps_its_frame { KeepsFrame self.old self.new }
    {
        for e in 0..self.tables.entries.number {
            self.entry_to_floor(e);
        }
    }

    // Closes each candidate of an entry that may be closed.
    fn close_entry(&mut self, e: usize)
        requires there { e < self.old.tables.entries.number }
        ensures closes_them { self.new.tables ≡ entry_closed (at_ceiling S.join self.old)
            e self.old.tables }
        ensures keeps_its_frame { KeepsFrame self.old self.new }
    {
        for candidate in 0..self.tables.entries.counts[e] {
            // One that is refused stays open, and the sweep goes on.
            let _ = self.close(e, candidate);
        }
    }

    // Of each entry.
    fn close_entries(&mut self)
        ensures closes_them { self.new.tables ≡ entries_closed (at_ceiling S.join self.old)
            self.old.tables }
        ensures keeps_its_frame { KeepsFrame self.old self.new }
    {
        for e in 0..self.tables.entries.number {
            self.close_entry(e);
        }
    }

    // One sweep.
    pub(crate) fn sweep(&mut self)
        ensures sweeps { self.new.tables
            ≡ swept_once (at_ceiling S.join self.old) (at_ceiling S.rest self.old)
            self.old.tables }
        ensures keeps_its_frame { KeepsFrame self.old self.new }
    {
        self.pairs_to_own();
        self.entries_to_floor();
        self.close_entries();
    }
}
