// A lifted amount as its holder has it.
ghost use Rattle.std.specs.Prelude.{◌≡◌, true};
ghost use Rattle.plan.specs.Lifting.{lift_token};

use crate::tables::Hand;

// An amount that was lifted for a candidate. It may be let go only once a set-down has spent it.
// The flag stays, since a rule of the project wants a drop that demands it.
#[derive(Debug)]
pub struct Token {
    held: Hand,
    spent: bool,
}

impl Drop for Token {
    fn drop(self)
        requires spent { self.spent ≡ true }
    {
        let Token { held: _, spent: _ } = self;
    }
}

impl Token {
    pub(crate) fn of(held: Hand) -> Token
        ensures is_unspent { result ≡ lift_token held.entry held.candidate held.amount }
    {
        Token { held, spent: false }
    }

    // What a set-down does with it: it may be let go, and is.
    pub(crate) fn spend(mut self) {
        self.spent = true;
    }

    // The amount that it stands for, with its entry and candidate.
    pub fn holds(&self) -> Hand
        ensures is_what_it_holds { result ≡ self.now.held }
    {
        self.held
    }
}
