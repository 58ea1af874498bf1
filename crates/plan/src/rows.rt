// Numbers of open candidates: the least of them, and changes to them. Rows of cells.
ghost use Rattle.std.specs.Prelude.{◌≡◌, ℕ, ◌<◌, true, length, slice_index, unwrap_or};
ghost use Rattle.plan.specs.Invariant.{Sound};
ghost use Rattle.plan.specs.Lifting.{with_cell_list};
ghost use Rattle.plan.specs.Rows.{Computes, ComputesBelow, StaysBelow, is_marked, changed};
ghost use Rattle.plan.specs.Rows.{least_where, is_at, is_first, other_of, row_place, row_least};
ghost use Rattle.plan.specs.Rows.{row_changed};

use crate::Plan;
use crate::layout::cell_place;
use crate::tables::Tables;

// The least of the numbers of the marked, 0 where none is marked. A chain by `min` would be no
// plainer: its closure has to be callable at every k.
pub(crate) fn least_marked<F: Fn(usize) -> u32>(marks: &[bool], number: F) -> u32
    requires reads { (k : ℕ) → k < length marks.now → F.pre number k }
    ensures is_the_least { (f : ℕ → ℕ) → ComputesBelow (length marks.now) (F.post number) f
        → result ≡ unwrap_or (least_where (is_marked marks.now) f (length marks.now)) 0 }
{
    let mut least: Option<u32> = None;
    for (k, counts) in marks.iter().enumerate() {
        if *counts {
            let found = number(k);
            least = Some(least.map_or(found, |low| low.min(found)));
        }
    }
    least.unwrap_or(0)
}

// Makes of each number at the place of a marked one what `change` makes of it. That `change` can be
// called with any number, here and where it is handed on, has no shorter form.
pub(crate) fn change_marked<P: Fn(usize) -> usize, F: Fn(u32) -> u32>(
    marks: &[bool],
    numbers: &mut [u32],
    place: P,
    change: F,
)
    requires places { (k : ℕ) → k < length marks.now → P.pre place k }
    requires within { StaysBelow (length marks.now) (P.post place) (length numbers.old) }
    requires changes { F.IsAlwaysCallable change }
    ensures changes_them { (at by : ℕ → ℕ) → ComputesBelow (length marks.now) (P.post place) at
        → Computes (F.post change) by
        → numbers.new ≡ changed (is_marked marks.now) at by (length marks.now) numbers.old }
{
    for (k, is_marked) in marks.iter().enumerate() {
        if *is_marked {
            let at = place(k);
            numbers[at] = change(numbers[at]);
        }
    }
}

// The place of the cell of a candidate with one of the other entry.
fn row_place(ahead: bool, p: usize, c: usize, k: usize) -> usize
    requires few { (p < 24) × ((c < 8) × (k < 8)) }
    ensures is_its_place { result ≡ row_place ahead p c k }
    ensures within { result < 1536 }
{
    if ahead {
        cell_place(p, c, k)
    } else {
        cell_place(p, k, c)
    }
}

impl Tables {
    // Whether an entry of a pair is its first, and the other entry. Both are always meant, so
    // neither stands in an Option.
    fn sides(&self, entry: usize, pair: usize) -> (bool, usize)
        requires there { pair < 24 }
        ensures are_they { result ≡ (is_first self.now entry pair, other_of self.now entry pair) }
    {
        let (first, second) = self.pairs.ends[pair];
        if first == entry {
            (true, second)
        } else {
            (false, first)
        }
    }

    // Makes of each open cell of the row at a candidate of an entry what `change` makes of it.
    pub(crate) fn change_row<F: Fn(u32) -> u32>(
        &mut self,
        entry: usize,
        candidate: usize,
        pair: usize,
        change: F,
    )
        requires sound { Sound self.old }
        requires at { is_at self.old entry pair ≡ true }
        requires few { candidate < 8 }
        requires changes { F.IsAlwaysCallable change }
        ensures changes_it { (by : ℕ → ℕ) → Computes (F.post change) by
            → self.new ≡ with_cell_list self.old (row_changed by self.old entry candidate pair) }
    {
        let (ahead, other) = self.sides(entry, pair);
        change_marked(
            self.entries.marks_of(other),
            &mut self.pairs.cells,
            |k| row_place(ahead, pair, candidate, k),
            change,
        );
    }
}

impl<S> Plan<S> {
    // Whether a pair is there and an entry is one of its two.
    pub(crate) fn is_at(&self, entry: usize, pair: usize) -> bool
        ensures is_so { result ≡ is_at self.now.tables entry pair }
    {
        self.pair(pair)
            .is_some_and(|(first, second)| first == entry || second == entry)
    }

    // The least number of a row, 0 where it is empty.
    pub(crate) fn row_least(&self, entry: usize, candidate: usize, pair: usize) -> u32
        requires at { is_at self.now.tables entry pair ≡ true }
        requires few { candidate < 8 }
        ensures is_the_least { result ≡ row_least self.now.tables entry candidate pair }
    {
        let (ahead, other) = self.tables.sides(entry, pair);
        least_marked(self.tables.entries.marks_of(other), |k| {
            self.tables.pairs.cells[row_place(ahead, pair, candidate, k)]
        })
    }
}
