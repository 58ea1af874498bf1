// Closing and lowering: what is allowed, and that no cheap tuning is lost.
use crate::samples::{filled_plan, numbered};
use plan::Plan;
use scale::Scale;
use scale::sum::SumScale;
use scale::worst::WorstScale;
use std::test::Fail;

// One entry with the own penalties 9, 8 and 0, at the ceiling 10.
fn single<S: Scale + Drop>(scale: S) -> Result<Plan<S>, Fail> {
    filled_plan(scale, 10, &[3], &[9, 8, 0], &[])
}

#[test]
fn lowers_to_one_at_least(rt: HostRuntime) -> Result<(), Fail> {
    let mut plan = single(SumScale)?;
    assert_eq!(rt; numbered(plan.lower(11)), Err(13));
    assert_eq!(rt; numbered(plan.lower(0)), Err(13));
    assert_eq!(rt; plan.bound(), 10);
    assert_eq!(rt; numbered(plan.lower(9)), Ok(()));
    assert_eq!(rt; numbered(plan.lower(10)), Err(13));
    assert_eq!(rt; numbered(plan.lower(9)), Ok(()));
    assert_eq!(rt; numbered(plan.lower(1)), Ok(()));
    assert_eq!(rt; plan.bound(), 1);
    Ok(())
}

#[test]
fn closes_at_the_bound(rt: HostRuntime) -> Result<(), Fail> {
    let mut plan = single(SumScale)?;
    assert_eq!(rt; numbered(plan.close(0, 0)), Err(15));
    assert_eq!(rt; numbered(plan.lower(9)), Ok(()));
    assert_eq!(rt; numbered(plan.close(0, 1)), Err(15));
    assert_eq!(rt; numbered(plan.close(0, 0)), Ok(()));
    assert_eq!(rt; numbered(plan.close(0, 0)), Err(9), "closed already");
    assert_eq!(rt; numbered(plan.close(0, 3)), Err(9), "candidate absent");
    assert_eq!(rt; numbered(plan.close(1, 0)), Err(9), "entry absent");
    assert_eq!(rt; plan.is_open(0, 0), Some(false));
    assert_eq!(rt; plan.is_open(0, 1), Some(true));
    Ok(())
}

#[test]
fn a_closed_tuning_has_no_cost(rt: HostRuntime) -> Result<(), Fail> {
    let mut plan = single(WorstScale)?;
    assert_eq!(rt; numbered(plan.lower(8)), Ok(()));
    assert_eq!(rt; numbered(plan.close(0, 1)), Ok(()));
    assert!(rt; plan.cost(&[1]).is_err());
    assert!(rt; plan.cost(&[0]).is_ok());
    assert_eq!(rt; numbered(plan.close(0, 0)), Ok(()));
    assert_eq!(rt; numbered(plan.close(0, 2)), Err(15), "the cheap one stays");
    Ok(())
}
