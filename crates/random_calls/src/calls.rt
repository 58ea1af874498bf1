// Calls, played one after another and held against the lists.
ghost use Rattle.std.specs.Prelude.{◌≡◌, true};
ghost use Rattle.plan.specs.Lifting.{is_in_hand};

use crate::dice::Dice;
use crate::lists_of_three::Lists;
use plan::Plan;
use plan::place::Place;
use plan::token::Token;
use scale::Scale;
use scale::sum::SumScale;
use scale::worst::WorstScale;
use std::alloc::Global;
use std::ops::AddAssign;
use std::process::Abort;
use std::test::Fail;

// How many lifts, lowerings and closings were accepted, and how many sweeps settlings made.
#[derive(Clone, Copy, Debug, Default, PartialEq, Eq)]
struct Tally {
    lifts: u32,
    lowerings: u32,
    closings: u32,
    sweeps: u32,
}

impl AddAssign for Tally {
    fn add_assign(&mut self, other: Tally) {
        self.lifts = self.lifts.saturating_add(other.lifts);
        self.lowerings = self.lowerings.saturating_add(other.lowerings);
        self.closings = self.closings.saturating_add(other.closings);
        self.sweeps = self.sweeps.saturating_add(other.sweeps);
    }
}

// A place, there or not.
fn place(dice: &mut Dice) -> Place {
    match dice.place(6) {
        0 | 1 => Place::OwnPenalty,
        p => Place::Row(p - 2),
    }
}

// A plan in play, with the lists that it was filled from and the dice that choose its calls.
// Nothing compares games.
#[derive(Debug, Drop)]
struct Game<S> {
    scale: S,
    lists: Lists,
    plan: Plan<S>,
    dice: Dice,
    tally: Tally,
}

impl<S: Scale + Copy> Game<S> {
    // A plan that made-up lists fill, or a test's failure.
    fn start(heap: Global, scale: S, number: u64) -> Result<Game<S>, Fail> {
        let mut dice = Dice::new(number);
        let lists = Lists::random(heap, &mut dice)?;
        let mut plan = Plan::new(scale);
        plan.fill(lists.ceiling, &lists.counts, &lists.own, &lists.pairs)?;
        Ok(Game {
            scale,
            lists,
            plan,
            dice,
            tally: Tally::default(),
        })
    }

    // Whether a tuning is open and costs its filled cost, or its filled cost is at least the bound.
    fn is_kept(&self, tuning: &[usize; 3]) -> bool {
        let filled = self.lists.filled_cost(&self.scale, tuning);
        match self.plan.cost(tuning) {
            Ok(cost) => cost == filled,
            Err(_) => filled >= self.plan.bound(),
        }
    }

    // Whether all tunings are.
    fn all_kept(&self) -> bool {
        let [first, second, third] = self.lists.counts;
        (0..first).all(|a| (0..second).all(|b| (0..third).all(|c| self.is_kept(&[a, b, c]))))
    }

    // A closing, a lowering or a settling, accepted or refused.
    fn plain_call(&mut self)
        ensures keeps_the_hand { self.new.plan.tables.hand ≡ self.old.plan.tables.hand }
    {
        match self.dice.below(12) {
            0 => {
                if self.plan.lower(1 + self.dice.below(30)).is_ok() {
                    self.tally.lowerings = self.tally.lowerings.saturating_add(1);
                }
            }
            1 => {
                if let Ok(settled) = self.plan.settle(self.dice.below(4)) {
                    self.tally.sweeps = self.tally.sweeps.saturating_add(settled.sweeps);
                }
            }
            _ => {
                if self
                    .plan
                    .close(self.dice.place(4), self.dice.place(4))
                    .is_ok()
                {
                    self.tally.closings = self.tally.closings.saturating_add(1);
                }
            }
        }
    }

    // Sets a token down to the own penalty, which takes every token that is in hand. Its twin in
    // trials stays: shared, it would be a public function with a `requires`, which is no plainer.
    fn set_to_own(&mut self, token: Token)
        requires in_hand { is_in_hand self.old.plan.tables.hand
            token.held.entry token.held.candidate token.held.amount ≡ true }
    {
        match self.plan.set_down(token, Place::OwnPenalty) {
            Ok(()) => {}
            Err((_, _)) => unreachable(),
        }
    }

    // A set-down to a place, there or not; a refused token goes to the own penalty.
    fn set_somewhere(&mut self, token: Token)
        requires in_hand { is_in_hand self.old.plan.tables.hand
            token.held.entry token.held.candidate token.held.amount ≡ true }
    {
        match self.plan.set_down(token, place(&mut self.dice)) {
            Ok(()) => {}
            Err((_, returned)) => self.set_to_own(returned),
        }
    }

    // A lift and, where it is accepted, a call and a set-down; whether all tunings are kept
    // meanwhile. It answers so, since an assertion here would take leave to end the process.
    fn lift_call(&mut self) -> bool {
        let from = place(&mut self.dice);
        let (entry, candidate) = (self.dice.place(4), self.dice.place(3));
        match self.plan.lift(from, entry, candidate, self.dice.below(4)) {
            Err(_) => true,
            Ok(token) => {
                self.tally.lifts = self.tally.lifts.saturating_add(1);
                let lifted = self.all_kept();
                self.plain_call();
                let called = self.all_kept();
                self.set_somewhere(token);
                lifted && called
            }
        }
    }

    // A call of either kind; whether all tunings are kept meanwhile and after it.
    fn call(&mut self) -> bool {
        let meanwhile = if self.dice.below(3) == 0 {
            self.plain_call();
            true
        } else {
            self.lift_call()
        };
        meanwhile && self.all_kept()
    }
}

// A list of calls on a filled plan, all tunings kept; what was accepted.
fn play<S: Scale + Copy>(
    rt: &impl Abort,
    heap: Global,
    scale: S,
    number: u64,
) -> Result<Tally, Fail> {
    let mut game = Game::start(heap, scale, number)?;
    for _ in 0..16 {
        assert!(rt; game.call(), "all tunings are kept");
    }
    Ok(game.tally)
}

fn play_many<S: Scale + Copy>(rt: &impl Abort, heap: Global, scale: S) -> Result<(), Fail> {
    let mut total = Tally::default();
    for number in 0..400 {
        total += play(rt, heap, scale, number)?;
    }
    assert!(rt; total.lifts > 400, "enough lifts are accepted");
    assert!(rt; total.lowerings > 40, "enough bounds are lowered");
    assert!(rt; total.closings > 20, "enough candidates are closed");
    assert!(rt; total.sweeps > 150, "enough sweeps are made");
    Ok(())
}

#[test]
fn calls_on_the_sum_scale(rt: HostRuntime) -> Result<(), Fail> {
    play_many(&rt, rt.alloc(), SumScale)
}

#[test]
fn calls_on_the_worst_scale(rt: HostRuntime) -> Result<(), Fail> {
    play_many(&rt, rt.alloc(), WorstScale)
}
