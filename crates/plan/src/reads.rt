// What a plan holds, read.
ghost use Rattle.std.specs.Prelude.{◌≡◌, ◌<◌, IfSome, if◌then◌else◌, Some, None, nat_lt};
ghost use Rattle.plan.specs.Invariant.{Sound};
ghost use Rattle.plan.specs.Layout.{candidate_place, count_of, own_of, open_at, first_of};
ghost use Rattle.plan.specs.Layout.{second_of, cell_of, is_there, is_cell};

use crate::Plan;
use crate::layout::{candidate_place, cell_place};
use crate::tables::{Hand, Tables};

// Readers whose bodies look alike read different fields, each a line.
impl<S> Plan<S> {
    // The number of entries.
    pub fn entries(&self) -> usize
        ensures is_their_number { result ≡ self.now.tables.entries.number }
    {
        self.tables.entries.number
    }

    // The number of candidates of an entry.
    pub fn candidates(&self, entry: usize) -> Option<usize>
        ensures is_their_number { result ≡ (if nat_lt entry self.now.tables.entries.number then
            Some (count_of self.now.tables entry) else None) }
    {
        (entry < self.entries()).then(|| self.tables.entries.counts[entry])
    }

    // The number of pairs.
    pub fn pairs(&self) -> usize
        ensures is_their_number { result ≡ self.now.tables.pairs.number }
    {
        self.tables.pairs.number
    }

    // The two entries of a pair, the lower one first.
    pub fn pair(&self, pair: usize) -> Option<(usize, usize)>
        ensures are_its_entries { result ≡ (if nat_lt pair self.now.tables.pairs.number then Some
            (first_of self.now.tables pair, second_of self.now.tables pair) else None) }
    {
        (pair < self.pairs()).then(|| self.tables.pairs.ends[pair])
    }

    pub fn floor(&self) -> u32
        ensures is_the_floor { result ≡ self.now.tables.limits.floor }
    {
        self.tables.limits.floor
    }

    pub fn ceiling(&self) -> u32
        ensures is_the_ceiling { result ≡ self.now.tables.limits.ceiling }
    {
        self.tables.limits.ceiling
    }

    pub fn bound(&self) -> u32
        ensures is_the_bound { result ≡ self.now.tables.limits.bound }
    {
        self.tables.limits.bound
    }

    // Where a candidate stands in the tables, if it is there.
    fn place(&self, entry: usize, candidate: usize) -> Option<usize>
        ensures is_its_place { result ≡ (if is_there self.now.tables entry candidate then Some
            (candidate_place entry candidate) else None) }
        ensures within { IfSome result (λ p. p < 128) }
    {
        (candidate < self.candidates(entry)?).then(|| candidate_place(entry, candidate))
    }

    // The own penalty of a candidate.
    pub fn own(&self, entry: usize, candidate: usize) -> Option<u32>
        ensures is_its_own_penalty { result ≡ (if is_there self.now.tables entry candidate then
            Some (own_of self.now.tables entry candidate) else None) }
    {
        Some(self.tables.entries.own[self.place(entry, candidate)?])
    }

    // Whether a candidate is open.
    pub fn is_open(&self, entry: usize, candidate: usize) -> Option<bool>
        ensures is_its_mark { result ≡ (if is_there self.now.tables entry candidate then Some
            (open_at self.now.tables entry candidate) else None) }
    {
        Some(self.tables.entries.marks[self.place(entry, candidate)?])
    }

    // A pair's cell for a candidate of its first entry and one of its second.
    pub fn cell(&self, pair: usize, candidate: usize, choice: usize) -> Option<u32>
        ensures is_the_cell { result ≡ (if is_cell self.now.tables pair candidate choice then Some
            (cell_of self.now.tables pair candidate choice) else None) }
    {
        let (first, second) = self.pair(pair)?;
        let is_there = candidate < self.candidates(first)? && choice < self.candidates(second)?;
        is_there.then(|| self.tables.pairs.cells[cell_place(pair, candidate, choice)])
    }

    // What is in hand.
    pub fn in_hand(&self) -> Option<Hand>
        ensures is_the_hand { result ≡ self.now.tables.hand }
    {
        self.tables.hand
    }

    // The tables, lent to be read.
    pub fn tables(&self) -> &Tables
        ensures are_its_tables { result.now ≡ self.now.tables }
        ensures are_sound { Sound result.now }
    {
        &self.tables
    }
}
