// Tokens in use: each is set down on every way.
ghost use Rattle.std.specs.Prelude.{◌≡◌, true};
ghost use Rattle.plan.specs.Lifting.{is_in_hand};

use plan::Plan;
use plan::place::Place;
use plan::refusals::Refusal;
use plan::token::Token;
use scale::Scale;

// Sets a token down to the own penalty, which takes every token that is in hand. Its twin in
// random_calls stays: shared, it would be a public function with a `requires`, which is no plainer.
fn set_to_own<S: Scale>(plan: &mut Plan<S>, token: Token)
    requires in_hand { is_in_hand plan.old.tables.hand
        token.held.entry token.held.candidate token.held.amount ≡ true }
{
    match plan.set_down(token, Place::OwnPenalty) {
        Ok(()) => {}
        Err((_, _)) => unreachable(),
    }
}

// Moves an amount to a place, and if that is refused to the own penalty; whether the place took it.
// The numbers stay parameters: they are those of `lift`, in its order.
pub(crate) fn moved<S: Scale>(
    plan: &mut Plan<S>,
    from: Place,
    entry: usize,
    candidate: usize,
    amount: u32,
    to: Place,
) -> Result<bool, Refusal> {
    let token = plan.lift(from, entry, candidate, amount)?;
    match plan.set_down(token, to) {
        Ok(()) => Ok(true),
        Err((_, returned)) => {
            set_to_own(plan, returned);
            Ok(false)
        }
    }
}

// The refusal of a second lift while the first amount is in hand.
pub(crate) fn second_lift<S: Scale>(
    plan: &mut Plan<S>,
    entry: usize,
    candidate: usize,
    amount: u32,
) -> Result<Refusal, Refusal> {
    let token = plan.lift(Place::OwnPenalty, entry, candidate, amount)?;
    match plan.lift(Place::OwnPenalty, entry, candidate, amount) {
        Ok(_) => unreachable(),
        Err(refusal) => {
            set_to_own(plan, token);
            Ok(refusal)
        }
    }
}

// What another plan answers to a token, once this one has given it.
pub(crate) fn set_elsewhere<S: Scale>(
    plan: &mut Plan<S>,
    other: &mut Plan<S>,
    entry: usize,
    candidate: usize,
    amount: u32,
) -> Result<Result<(), Refusal>, Refusal> {
    let token = plan.lift(Place::OwnPenalty, entry, candidate, amount)?;
    match other.set_down(token, Place::OwnPenalty) {
        Ok(()) => Ok(Ok(())),
        Err((refusal, back)) => {
            set_to_own(plan, back);
            Ok(Err(refusal))
        }
    }
}
