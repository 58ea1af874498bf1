// The plain tables of a plan: 8 places for each of 16 entries, and 64 for each of 24 pairs. A rule
// of the project: a plan allocates nothing and holds plain arrays, with their numbers beside them.

// The most entries, candidates of an entry, and pairs.
pub const MOST_ENTRIES: usize = 16;

pub const MOST_CANDIDATES: usize = 8;

pub const MOST_PAIRS: usize = 24;

// The entries: how many candidates each has, and of each candidate its own penalty and whether it
// is open.
#[derive(Clone, Copy, Debug, PartialEq, Eq)]
pub struct Entries {
    pub number: usize,
    pub counts: [usize; 16],
    pub own: [u32; 128],
    pub marks: [bool; 128],
}

// The pairs: the two entries of each, the lower one first, and a cell for each candidate of the one
// with each of the other.
#[derive(Clone, Copy, Debug, PartialEq, Eq)]
pub struct Pairs {
    pub number: usize,
    pub ends: [(usize, usize); 24],
    pub cells: [u32; 1536],
}

// The floor, which every tuning pays; the ceiling, which no penalty passes; and the bound, below
// which a tuning is sought.
#[derive(Clone, Copy, Debug, PartialEq, Eq)]
pub struct Limits {
    pub floor: u32,
    pub ceiling: u32,
    pub bound: u32,
}

// An amount that was taken for a candidate and is not joined to anything yet.
#[derive(Clone, Copy, Debug, PartialEq, Eq)]
pub struct Hand {
    pub entry: usize,
    pub candidate: usize,
    pub amount: u32,
}

// How far settling came: the sweeps made, and whether the last of them changed nothing. Both are
// always meant, so neither stands in an Option.
#[derive(Clone, Copy, Debug, PartialEq, Eq)]
pub struct Settled {
    pub sweeps: u32,
    pub stable: bool,
}

// All of a plan but its scale. It is plain, a rule of the project, so its own methods ask for what
// they need of it; the invariant stands in the plan.
#[derive(Clone, Copy, Debug, PartialEq, Eq)]
pub struct Tables {
    pub entries: Entries,
    pub pairs: Pairs,
    pub limits: Limits,
    pub hand: Option<Hand>,
}
