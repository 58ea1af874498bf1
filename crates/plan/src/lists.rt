// The lists that a plan is filled from.
use crate::records::PairRecord;

// The ceiling, the number of candidates of each entry, their own penalties by entry and then
// candidate, and the points of cells.
#[derive(Clone, Copy, Debug, PartialEq, Eq)]
pub struct Lists<'a> {
    pub ceiling: u32,
    pub counts: &'a [usize],
    pub own: &'a [u32],
    pub records: &'a [PairRecord],
}
