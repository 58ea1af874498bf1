// Where an amount is lifted from or set down to.

// At a candidate: its own penalty, or its row in a pair.
#[derive(Clone, Copy, Debug, PartialEq, Eq)]
pub enum Place {
    OwnPenalty,
    Row(usize),
}
