// Why a call is refused.
ghost use Rattle.std.specs.Prelude.{◌≡◌};
ghost use Rattle.plan.specs.Numbers.{number_of, list_number_of};

// Each with the number that a user sees.
#[derive(Clone, Copy, Debug, PartialEq, Eq)]
pub enum Refusal {
    CeilingOutOfRange = 1,
    AlreadyFilled = 2,
    CountOutOfRange = 3,
    OwnLength = 4,
    PointsAboveCeiling = 5,
    RecordOfAbsent = 6,
    RepeatedCell = 7,
    TooManyPairs = 8,
    Absent = 9,
    AmountOutOfRange = 10,
    HandNotEmpty = 11,
    NotInHand = 12,
    BoundOutOfRange = 13,
    TooManySweeps = 14,
    NotAllowed = 15,
}

impl Refusal {
    pub fn number(&self) -> u32
        ensures is_its_number { result ≡ number_of self.now }
    {
        // Named, so that an edit can turn this number alone.
        let refusal = *self;
        refusal as u32
    }
}

// The lists that a plan is filled from, each with the number that a user sees.
#[derive(Clone, Copy, Debug, PartialEq, Eq)]
pub enum FillList {
    Counts = 0,
    Own = 1,
    Pairs = 2,
}

impl FillList {
    // The twin of a refusal's number: a trait for both would be longer than the two lines that it
    // saves.
    pub fn number(&self) -> u32
        ensures is_its_number { result ≡ list_number_of self.now }
    {
        // Named, so that an edit can turn this number alone.
        let list = *self;
        list as u32
    }
}

// Why lists are refused: at which place of which list.
#[derive(Clone, Copy, Debug, PartialEq, Eq)]
pub struct FillFault {
    pub refusal: Refusal,
    pub list: FillList,
    pub place: usize,
}

impl FillFault {
    // Refused at a place of a list.
    pub(crate) fn at(refusal: Refusal, list: FillList, place: usize) -> FillFault
        ensures is_of_these { result ≡ record { refusal = refusal; list = list; place = place } }
    {
        FillFault {
            refusal,
            list,
            place,
        }
    }
}
