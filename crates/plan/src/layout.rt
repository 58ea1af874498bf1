// Where the numbers of a plan stand in its tables.
ghost use Rattle.std.specs.Prelude.{◌≡◌, ◌<◌, ◌≤◌, slice_index};
ghost use Rattle.plan.specs.Layout.{candidate_place, cell_place};
ghost use Rattle.plan.specs.Rows.{marks_of};

use crate::tables::Entries;

// The place of a candidate of an entry among the own penalties and the marks.
pub(crate) fn candidate_place(entry: usize, candidate: usize) -> usize
    requires few { (entry < 16) × (candidate < 8) }
    ensures is_its_place { result ≡ candidate_place entry candidate }
    ensures within { result < 128 }
{
    8 * entry + candidate
}

// The place of the cell of a candidate of a pair's first entry and one of its second.
pub(crate) fn cell_place(pair: usize, candidate: usize, choice: usize) -> usize
    requires few { (pair < 24) × ((candidate < 8) × (choice < 8)) }
    ensures is_its_place { result ≡ cell_place pair candidate choice }
    ensures within { result < 1536 }
{
    64 * pair + 8 * candidate + choice
}

impl Entries {
    // The marks of the candidates of an entry.
    pub(crate) fn marks_of(&self, entry: usize) -> &[bool]
        requires there { entry < 16 }
        requires few { slice_index self.now.counts entry ≤ 8 }
        ensures are_its_marks { result.now ≡ marks_of self.now entry }
    {
        let start = candidate_place(entry, 0);
        &self.marks[start..start + self.counts[entry]]
    }
}
