// Costs and reads of a filled plan, on both scales.
use crate::samples::{filled_plan, numbered, record};
use plan::Plan;
use scale::Scale;
use scale::sum::SumScale;
use scale::worst::WorstScale;
use std::test::Fail;

// Two entries of two candidates, and one pair that sits badly together.
fn sample<S: Scale + Drop>(scale: S, ceiling: u32) -> Result<Plan<S>, Fail> {
    let pairs = [record(0, 1, 1, 1, 4)];
    filled_plan(scale, ceiling, &[2, 2], &[3, 1, 1, 0], &pairs)
}

#[test]
fn on_the_sum_scale(rt: HostRuntime) -> Result<(), Fail> {
    let plan = sample(SumScale, 10)?;
    assert_eq!(rt; numbered(plan.cost(&[0, 0])), Ok(4));
    assert_eq!(rt; numbered(plan.cost(&[0, 1])), Ok(3));
    assert_eq!(rt; numbered(plan.cost(&[1, 0])), Ok(2));
    assert_eq!(rt; numbered(plan.cost(&[1, 1])), Ok(5));
    assert_eq!(rt; numbered(plan.cost(&[1])), Err(9), "wrong length");
    assert_eq!(rt; numbered(plan.cost(&[1, 1, 0])), Err(9), "wrong length");
    assert_eq!(rt; numbered(plan.cost(&[1, 2])), Err(9), "candidate absent");
    Ok(())
}

#[test]
fn capped_at_the_ceiling(rt: HostRuntime) -> Result<(), Fail> {
    let plan = sample(SumScale, 4)?;
    assert_eq!(rt; numbered(plan.cost(&[1, 1])), Ok(4));
    assert_eq!(rt; numbered(plan.cost(&[1, 0])), Ok(2));
    Ok(())
}

#[test]
fn on_the_worst_scale(rt: HostRuntime) -> Result<(), Fail> {
    let plan = sample(WorstScale, 10)?;
    assert_eq!(rt; numbered(plan.cost(&[0, 0])), Ok(3));
    assert_eq!(rt; numbered(plan.cost(&[1, 0])), Ok(1));
    assert_eq!(rt; numbered(plan.cost(&[1, 1])), Ok(4));
    Ok(())
}

#[test]
fn a_new_plan(rt: HostRuntime) {
    let plan = Plan::new(WorstScale);
    assert_eq!(rt; numbered(plan.cost(&[])), Ok(0));
    assert_eq!(rt; numbered(plan.cost(&[0])), Err(9));
    assert_eq!(rt; plan.entries(), 0);
    assert_eq!(rt; plan.pairs(), 0);
    assert_eq!(rt; plan.floor(), 0);
    assert_eq!(rt; plan.ceiling(), 1);
    assert_eq!(rt; plan.bound(), 1);
    assert_eq!(rt; plan.candidates(0), None);
    assert!(rt; plan.in_hand().is_none());
}

#[test]
fn reads(rt: HostRuntime) -> Result<(), Fail> {
    let plan = sample(SumScale, 10)?;
    assert_eq!(rt; plan.entries(), 2);
    assert_eq!(rt; plan.candidates(1), Some(2));
    assert_eq!(rt; plan.candidates(2), None);
    assert_eq!(rt; plan.bound(), 10);
    assert_eq!(rt; plan.own(0, 0), Some(3));
    assert_eq!(rt; plan.own(1, 1), Some(0));
    assert_eq!(rt; plan.own(1, 2), None);
    assert_eq!(rt; plan.is_open(1, 1), Some(true));
    assert_eq!(rt; plan.is_open(2, 0), None);
    assert_eq!(rt; plan.cell(0, 1, 1), Some(4));
    Ok(())
}
