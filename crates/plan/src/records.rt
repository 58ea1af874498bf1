// Records of penalties between candidates.

// The points of one cell: of the candidate of an entry with the choice of another, higher entry.
#[derive(Clone, Copy, Debug, PartialEq, Eq)]
pub struct PairRecord {
    pub entry: usize,
    pub candidate: usize,
    pub other: usize,
    pub choice: usize,
    pub points: u32,
}
