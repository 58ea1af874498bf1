// What the tests share: plans filled from lists, and answers with the numbers that a user sees.
use plan::Plan;
use plan::records::PairRecord;
use plan::refusals::Refusal;
use scale::Scale;
use std::test::Fail;

pub(crate) fn record(
    entry: usize,
    candidate: usize,
    other: usize,
    choice: usize,
    points: u32,
) -> PairRecord {
    PairRecord {
        entry,
        candidate,
        other,
        choice,
        points,
    }
}

// A plan on a scale, filled from lists that it has to accept: their fault is a test's failure. The
// parameters stay: they are those of `fill`, in its order.
pub(crate) fn filled_plan<S: Scale + Drop>(
    scale: S,
    ceiling: u32,
    counts: &[usize],
    own: &[u32],
    pairs: &[PairRecord],
) -> Result<Plan<S>, Fail> {
    let mut plan = Plan::new(scale);
    plan.fill(ceiling, counts, own, pairs)?;
    Ok(plan)
}

// An answer with its refusal as the number that a user sees.
pub(crate) fn numbered<T>(answer: Result<T, Refusal>) -> Result<T, u32> {
    answer.map_err(|refusal| refusal.number())
}
