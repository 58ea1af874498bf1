// Why a text is refused, and where.
ghost use Rattle.std.specs.Prelude.{◌≡◌};
ghost use Rattle.report.specs.Refusals.{number_of};

// The reasons, each with the number that a user sees.
#[derive(Clone, Copy, Debug, PartialEq, Eq)]
pub enum Reason {
    CeilingOutOfRange = 1,
    PointsAboveCeiling = 5,
    TextTooLong = 18,
    MalformedLine = 20,
}

impl Reason {
    // As a refusal of a plan tells its number: a trait for both would be longer than the line.
    pub(crate) fn number(&self) -> u32
        ensures is_its_number { result ≡ number_of self.now }
    {
        *self as u32
    }

    pub(crate) fn at_line(self, line: usize) -> Refusal
        ensures is_of_the_line { result ≡ record { reason = self; line = line } }
    {
        Refusal { reason: self, line }
    }
}

// A line counts from 1; a refusal of the whole text has line 0.
#[derive(Clone, Copy, Debug, PartialEq, Eq)]
pub struct Refusal {
    pub reason: Reason,
    pub line: usize,
}
