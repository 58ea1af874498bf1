// Lifting amounts and setting them down.
ghost use Rattle.std.specs.Prelude.{◌≡◌, ℕ, true, IfErr, IfOk, OnErr, None};
ghost use Rattle.plan.specs.Keeping.{Keeps};
ghost use Rattle.plan.specs.Layout.{is_there};
ghost use Rattle.plan.specs.Lifting.{CanAdjust, adjusted, is_place, largest_amount, lift_refusal};
ghost use Rattle.plan.specs.Lifting.{lifted, lift_answer, lift_after, is_in_hand, set_refusal};
ghost use Rattle.plan.specs.Lifting.{set_down_in, set_answer, set_after};
ghost use Rattle.plan.specs.Plans.{at_ceiling};
ghost use Rattle.plan.specs.Refusing.{Finds};
ghost use Rattle.plan.specs.Rows.{Computes};

use crate::Plan;
use crate::layout::candidate_place;
use crate::place::Place;
use crate::refusals::Refusal;
use crate::tables::{Hand, Tables};
use crate::token::Token;
use scale::Scale;

impl Tables {
    // Makes of each number at a candidate, in its own penalty or in a row at it, what `change`
    // makes of it.
    pub(crate) fn adjust<F: Fn(u32) -> u32>(
        &mut self,
        entry: usize,
        candidate: usize,
        place: Place,
        change: F,
    )
        requires can { CanAdjust self.old entry candidate place }
        requires changes { F.IsAlwaysCallable change }
        ensures adjusts_it { (by : ℕ → ℕ) → Computes (F.post change) by
            → self.new ≡ adjusted by self.old entry candidate place }
    {
        match place {
            Place::OwnPenalty => {
                let at = candidate_place(entry, candidate);
                self.entries.own[at] = change(self.entries.own[at]);
            }
            Place::Row(pair) => self.change_row(entry, candidate, pair, change),
        }
    }

    // Takes an amount off each number of its candidate at a place. The scale, here and in the moves
    // below, is the plan's, lent beside its tables: a method of the plan would be no plainer, since
    // it had to show that what is between two changes keeps the invariant.
    pub(crate) fn take_off<S: Scale>(&mut self, scale: &S, place: Place, moved: Hand)
        requires can { CanAdjust self.old moved.entry moved.candidate place }
        ensures takes_it_off { self.new
            ≡ adjusted (λ v. S.rest scale.now self.old.limits.ceiling v moved.amount)
            self.old moved.entry moved.candidate place }
    {
        let ceiling = self.limits.ceiling;
        self.adjust(moved.entry, moved.candidate, place, |points| {
            scale.rest(ceiling, points, moved.amount)
        });
    }

    // Joins an amount to each number of its candidate at a place. Like its opposite it is one call
    // of `adjust`, which has the change as a closure.
    pub(crate) fn join_to<S: Scale>(&mut self, scale: &S, place: Place, moved: Hand)
        requires can { CanAdjust self.old moved.entry moved.candidate place }
        ensures joins_it { self.new
            ≡ adjusted (λ v. S.join scale.now self.old.limits.ceiling v moved.amount)
            self.old moved.entry moved.candidate place }
    {
        let ceiling = self.limits.ceiling;
        self.adjust(moved.entry, moved.candidate, place, |points| {
            scale.join(ceiling, points, moved.amount)
        });
    }

    // Takes an amount off each number drawn on, and puts it in hand.
    fn take_up<S: Scale>(&mut self, scale: &S, from: Place, held: Hand)
        requires can { CanAdjust self.old held.entry held.candidate from }
        ensures lifts_it { self.new ≡ lifted (S.rest scale.now self.old.limits.ceiling) self.old
            from held.entry held.candidate held.amount }
    {
        self.take_off(scale, from, held);
        self.hand = Some(held);
    }

    // Joins an amount to each number at a place, and empties the hand.
    fn put_down<S: Scale>(&mut self, scale: &S, held: Hand, to: Place)
        requires can { CanAdjust self.old held.entry held.candidate to }
        ensures sets_it_down { self.new
            ≡ set_down_in (S.join scale.now self.old.limits.ceiling) self.old
            held.entry held.candidate held.amount to }
    {
        self.join_to(scale, to, held);
        self.hand = None;
    }
}

impl<S> Plan<S> {
    // Whether a place is at an entry.
    fn is_place(&self, entry: usize, place: Place) -> bool
        ensures is_so { result ≡ is_place self.now.tables entry place }
    {
        match place {
            Place::OwnPenalty => true,
            Place::Row(pair) => self.is_at(entry, pair),
        }
    }

    // The least number drawn on.
    fn largest_amount(&self, entry: usize, candidate: usize, place: Place) -> u32
        requires there { is_there self.now.tables entry candidate ≡ true }
        requires at { is_place self.now.tables entry place ≡ true }
        ensures is_the_least_drawn_on { result ≡ largest_amount self.now.tables entry candidate
            place }
    {
        match place {
            Place::OwnPenalty => self.tables.entries.own[candidate_place(entry, candidate)],
            Place::Row(pair) => self.row_least(entry, candidate, pair),
        }
    }

    // An amount may be lifted.
    fn check_lift(&self, from: Place, wanted: Hand) -> Result<(), Refusal>
        ensures is_the_first_refusal { Finds (lift_refusal self.now.tables from wanted.entry
            wanted.candidate wanted.amount) result }
    {
        if self.tables.hand.is_some() {
            return Err(Refusal::HandNotEmpty);
        }
        if self.is_open(wanted.entry, wanted.candidate) != Some(true)
            || !self.is_place(wanted.entry, from)
        {
            return Err(Refusal::Absent);
        }
        let largest = self.largest_amount(wanted.entry, wanted.candidate, from);
        if !(1..=largest).contains(&wanted.amount) {
            return Err(Refusal::AmountOutOfRange);
        }
        Ok(())
    }

    // Whether a token is what is in hand.
    fn is_in_hand(&self, token: &Token) -> bool
        ensures is_so { result ≡ is_in_hand self.now.tables.hand token.now.held.entry
            token.now.held.candidate token.now.held.amount }
    {
        self.tables.hand == Some(token.holds())
    }

    // A token may be set down.
    fn check_set_down(&self, token: &Token, to: Place) -> Result<(), Refusal>
        ensures is_the_first_refusal { Finds (set_refusal self.now.tables token.now.held.entry
            token.now.held.candidate token.now.held.amount to)
            result }
    {
        if !self.is_in_hand(token) {
            return Err(Refusal::NotInHand);
        }
        if !self.is_place(token.holds().entry, to) {
            return Err(Refusal::Absent);
        }
        Ok(())
    }
}

impl<S: Scale> Plan<S> {
    // Takes an amount off a candidate's own penalty, or off the open cells of a row at it, and puts
    // it in hand.
    #[tactic(auto, using(crate::proofs::Keepings::keeps_refl))]
    pub fn lift(
        &mut self,
        from: Place,
        entry: usize,
        candidate: usize,
        amount: u32,
    ) -> Result<Token, Refusal>
        ensures answers { result ≡ lift_answer self.old.tables from entry candidate amount }
        ensures the_token_is_in_hand { IfOk result
            (λ token. is_in_hand self.new.tables.hand
            token.held.entry token.held.candidate token.held.amount ≡ true) }
        ensures leaves { self.new.tables ≡ lift_after (at_ceiling S.rest self.old) self.old.tables
            from entry candidate amount }
        ensures refusal_changes_nothing { OnErr result (self.new.tables ≡ self.old.tables) }
        ensures keeps_its_scale { self.new.scale ≡ self.old.scale }
        ensures keeps_every_cheap_tuning { Keeps (at_ceiling S.join self.old) self.old.tables
            self.new.tables }
    {
        let held = Hand {
            entry,
            candidate,
            amount,
        };
        self.check_lift(from, held)?;
        self.tables.take_up(&self.scale, from, held);
        Ok(Token::of(held))
    }

    // Joins the amount in hand to a candidate's own penalty, or to the open cells of a row at it. A
    // rule of the project: a refused token comes back beside its refusal, since it may not be let
    // go.
    #[tactic(auto, using(crate::proofs::Keepings::keeps_refl))]
    pub fn set_down(&mut self, token: Token, to: Place) -> Result<(), (Refusal, Token)>
        ensures answers { result ≡ set_answer self.old.tables token to }
        ensures a_refused_token_comes_back { IfErr result (λ refused. refused.1 ≡ token) }
        ensures leaves { self.new.tables ≡ set_after (at_ceiling S.join self.old) self.old.tables
            token.held.entry token.held.candidate token.held.amount to }
        ensures refusal_changes_nothing { OnErr result (self.new.tables ≡ self.old.tables) }
        ensures keeps_its_scale { self.new.scale ≡ self.old.scale }
        ensures keeps_every_cheap_tuning { Keeps (at_ceiling S.join self.old) self.old.tables
            self.new.tables }
    {
        if let Err(refusal) = self.check_set_down(&token, to) {
            return Err((refusal, token));
        }
        self.tables.put_down(&self.scale, token.holds(), to);
        token.spend();
        Ok(())
    }
}
