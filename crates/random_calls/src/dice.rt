// A generator of numbers: the same for the same start.
ghost use Rattle.std.specs.Prelude.{◌≤◌};

#[derive(Clone, Copy, Debug, PartialEq, Eq)]
pub(crate) struct Dice {
    state: u64,
}

impl Dice {
    pub(crate) fn new(start: u64) -> Dice {
        Dice {
            state: start.wrapping_mul(2654435761).wrapping_add(12345),
        }
    }

    // A number below a limit, or 0 where the limit is 0. Here and below `as` stays, since no `From`
    // goes from so wide a type, nor to `usize`.
    pub(crate) fn below(&mut self, limit: u32) -> u32
        ensures is_low { result ≤ limit }
    {
        self.state = self
            .state
            .wrapping_mul(6364136223846793005)
            .wrapping_add(1442695040888963407);
        if limit == 0 {
            return 0;
        }
        ((self.state >> 33) % u64::from(limit)) as u32
    }

    pub(crate) fn place(&mut self, limit: u32) -> usize
        ensures is_low { result ≤ limit }
    {
        self.below(limit) as usize
    }
}
