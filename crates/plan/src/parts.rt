// What a tuning pays, gathered from the tables.
ghost use Rattle.std.specs.Prelude.{◌≡◌, ℕ, ◌+◌, ◌<◌, ◌≤◌, ◌++◌, map};
ghost use Rattle.std.specs.List.{range_with_len};
ghost use Rattle.arrayvec.specs.ArrayVec.{array_vec_len};
ghost use Rattle.plan.specs.Costs.{hand_part, own_part, cell_part, parts};
ghost use Rattle.plan.specs.Rows.{ComputesBelow};
ghost use Rattle.plan.specs.Tunings.{Tuning, is_open_tuning};

use crate::Plan;
use crate::layout::{candidate_place, cell_place};
use arrayvec::ArrayVec;

// Room for the floor, the hand, 16 own penalties and 24 cells.
const MOST_PARTS: usize = 42;

// What a tuning pays; a list that needs no memory of its own.
pub(crate) type Parts = ArrayVec<u32, MOST_PARTS>;

// Behind the parts so far, one for each number below n. The kit's `extend` would be no plainer: it
// answers want of room, of which there is none. A part has no other name than its number, so the
// numbers are counted.
fn push_each<F: Fn(usize) -> u32>(parts: &mut Parts, n: usize, part: F)
    requires room { array_vec_len parts.old + n ≤ 42 }
    requires reads { (k : ℕ) → k < n → F.pre part k }
    ensures pushes_them { (f : ℕ → ℕ) → ComputesBelow n (F.post part) f
        → parts.new.items ≡ parts.old.items ++ map f (range_with_len 0 n) }
    ensures adds_as_many { array_vec_len parts.new ≡ array_vec_len parts.old + n }
{
    for k in 0..n {
        parts.push(part(k));
    }
}

impl<S> Plan<S> {
    // Whether a list names an open candidate for each entry. As an `all`, it would need a lemma of
    // its own about what an `all` over numbered items answers.
    pub(crate) fn is_open_tuning(&self, tuning: &[usize]) -> bool
        ensures is_an_open_tuning { result ≡ is_open_tuning self.now.tables tuning.now }
    {
        if tuning.len() != self.tables.entries.number {
            return false;
        }
        for (entry, candidate) in tuning.iter().enumerate() {
            if self.is_open(entry, *candidate) != Some(true) {
                return false;
            }
        }
        true
    }

    // Each part names what it asks of the tuning: a type for tunings of a plan would hold the plan
    // as well, and be longer than the clauses that it saves.
    //
    // The amount in hand, where it is for a candidate of the tuning.
    fn hand_part(&self, tuning: &[usize]) -> u32
        requires names_each { Tuning self.now.tables tuning.now }
        ensures is_the_part { result ≡ hand_part self.now.tables.hand tuning.now }
    {
        match self.tables.hand {
            Some(hand) if tuning[hand.entry] == hand.candidate => hand.amount,
            _ => 0,
        }
    }

    // The own penalty of the tuning's candidate of an entry.
    fn own_part(&self, tuning: &[usize], e: usize) -> u32
        requires names_each { Tuning self.now.tables tuning.now }
        requires there { e < self.now.tables.entries.number }
        ensures is_the_part { result ≡ own_part self.now.tables tuning.now e }
    {
        self.tables.entries.own[candidate_place(e, tuning[e])]
    }

    // The tuning's cell of a pair.
    fn cell_part(&self, tuning: &[usize], p: usize) -> u32
        requires names_each { Tuning self.now.tables tuning.now }
        requires there { p < self.now.tables.pairs.number }
        ensures is_the_part { result ≡ cell_part self.now.tables tuning.now p }
    {
        let (first, second) = self.tables.pairs.ends[p];
        self.tables.pairs.cells[cell_place(p, tuning[first], tuning[second])]
    }

    // All that a tuning pays.
    pub(crate) fn gather(&self, tuning: &[usize]) -> Parts
        requires names_each { Tuning self.now.tables tuning.now }
        ensures are_the_parts { result.items ≡ parts self.now.tables tuning.now }
    {
        let mut parts = Parts::new();
        parts.push(self.tables.limits.floor);
        parts.push(self.hand_part(tuning));
        push_each(&mut parts, self.tables.entries.number, |e| {
            self.own_part(tuning, e)
        });
        push_each(&mut parts, self.tables.pairs.number, |p| {
            self.cell_part(tuning, p)
        });
        parts
    }
}
