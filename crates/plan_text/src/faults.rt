// Why a text is refused, and at which line.
ghost use Rattle.std.specs.Prelude.{◌≡◌};
ghost use Rattle.plan_text.specs.Faults.{line_number_of, number_of};
ghost use Rattle.plan_text.specs.declared.faults.TextFault.TheVariants.{Filling, OutOfMemory};

use plan::refusals::FillFault;
use std::alloc::AllocError;

// Lines count from 1. A fault of filling is carried whole. Want of memory is no fault of the text:
// its number, 22, is the first that no refusal has.
#[derive(Clone, Copy, Debug, PartialEq, Eq)]
pub enum TextFault {
    TooLong,
    Names,
    Malformed { line: usize },
    OutOfOrder { line: usize },
    Filling(FillFault),
    OutOfMemory,
}

impl TextFault {
    // The number that a user sees.
    pub fn number(&self) -> u32
        ensures is_its_number { result ≡ number_of self.now }
    {
        match self {
            TextFault::TooLong => 18,
            TextFault::Names => 19,
            TextFault::Malformed { .. } => 20,
            TextFault::OutOfOrder { .. } => 21,
            TextFault::Filling(fault) => fault.refusal.number(),
            TextFault::OutOfMemory => 22,
        }
    }

    // The line that a user sees: 0 where the fault is of no line.
    pub fn line(&self) -> usize
        ensures is_its_line { result ≡ line_number_of self.now }
    {
        match self {
            TextFault::Names => 1,
            TextFault::Malformed { line } | TextFault::OutOfOrder { line } => *line,
            TextFault::TooLong | TextFault::Filling(_) | TextFault::OutOfMemory => 0,
        }
    }
}

impl From<FillFault> for TextFault {
    ghost from_gives = { λ fault given. given ≡ Filling fault };

    fn from(fault: FillFault) -> TextFault {
        TextFault::Filling(fault)
    }
}

impl From<AllocError> for TextFault {
    ghost from_gives = { λ _ given. given ≡ OutOfMemory };

    fn from(_refused: AllocError) -> TextFault {
        TextFault::OutOfMemory
    }
}
