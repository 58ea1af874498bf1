// Lifting and setting down: amounts, refusals, and costs that stay.
use crate::samples::{filled_plan, numbered, record};
use crate::tokens::{moved, second_lift, set_elsewhere};
use plan::Plan;
use plan::place::Place;
use scale::Scale;
use scale::sum::SumScale;
use scale::worst::WorstScale;
use std::test::Fail;

// One candidate with the row 2, 3 at the ceiling 10.
fn row_of_two<S: Scale + Drop>(scale: S) -> Result<Plan<S>, Fail> {
    let pairs = [record(0, 0, 1, 0, 2), record(0, 0, 1, 1, 3)];
    filled_plan(scale, 10, &[1, 2], &[0, 4, 1], &pairs)
}

#[test]
fn at_most_the_least_of_a_row(rt: HostRuntime) -> Result<(), Fail> {
    let mut plan = row_of_two(SumScale)?;
    assert_eq!(rt;
        numbered(moved(&mut plan, Place::Row(0), 0, 0, 3, Place::OwnPenalty)),
        Err(10)
    );
    assert_eq!(rt;
        numbered(moved(&mut plan, Place::Row(0), 0, 0, 0, Place::OwnPenalty)),
        Err(10)
    );
    assert_eq!(rt; plan.own(0, 0), Some(0));
    assert_eq!(rt;
        numbered(moved(&mut plan, Place::Row(0), 0, 0, 2, Place::OwnPenalty)),
        Ok(true)
    );
    assert_eq!(rt; plan.own(0, 0), Some(2));
    assert_eq!(rt; plan.cell(0, 0, 0), Some(0));
    assert_eq!(rt; plan.cell(0, 0, 1), Some(1));
    assert_eq!(rt; numbered(plan.cost(&[0, 0])), Ok(6));
    assert_eq!(rt; numbered(plan.cost(&[0, 1])), Ok(4));
    Ok(())
}

#[test]
fn every_number_stays_on_the_worst_scale(rt: HostRuntime) -> Result<(), Fail> {
    let mut plan = row_of_two(WorstScale)?;
    assert_eq!(rt;
        numbered(moved(&mut plan, Place::Row(0), 0, 0, 2, Place::OwnPenalty)),
        Ok(true)
    );
    assert_eq!(rt; plan.own(0, 0), Some(2));
    assert_eq!(rt; plan.cell(0, 0, 0), Some(2));
    assert_eq!(rt; plan.cell(0, 0, 1), Some(3));
    assert_eq!(rt; numbered(plan.cost(&[0, 0])), Ok(4));
    assert_eq!(rt; numbered(plan.cost(&[0, 1])), Ok(3));
    Ok(())
}

#[test]
fn a_row_has_open_candidates_only(rt: HostRuntime) -> Result<(), Fail> {
    let mut plan = row_of_two(SumScale)?;
    assert!(rt; plan.lower(4).is_ok());
    assert!(rt; plan.close(1, 0).is_ok());
    assert_eq!(rt;
        numbered(moved(&mut plan, Place::Row(0), 0, 0, 3, Place::OwnPenalty)),
        Ok(true)
    );
    assert_eq!(rt; plan.cell(0, 0, 0), Some(2));
    assert_eq!(rt; plan.cell(0, 0, 1), Some(0));
    assert_eq!(rt; numbered(plan.cost(&[0, 1])), Ok(4));
    Ok(())
}

#[test]
fn what_is_absent(rt: HostRuntime) -> Result<(), Fail> {
    let mut plan = row_of_two(SumScale)?;
    assert_eq!(rt;
        numbered(moved(&mut plan, Place::Row(1), 0, 0, 1, Place::OwnPenalty)),
        Err(9)
    );
    assert_eq!(rt;
        numbered(moved(&mut plan, Place::OwnPenalty, 2, 0, 1, Place::Row(0))),
        Err(9)
    );
    assert_eq!(rt;
        numbered(moved(&mut plan, Place::OwnPenalty, 0, 1, 1, Place::Row(0))),
        Err(9)
    );
    assert_eq!(rt;
        numbered(moved(&mut plan, Place::OwnPenalty, 0, 0, 1, Place::Row(0))),
        Err(10),
        "own penalty 0"
    );
    assert_eq!(rt;
        numbered(moved(&mut plan, Place::OwnPenalty, 1, 0, 4, Place::Row(1))),
        Ok(false),
        "back to its own penalty"
    );
    assert_eq!(rt; plan.own(1, 0), Some(4));
    assert!(rt; plan.in_hand().is_none());
    Ok(())
}

#[test]
fn one_amount_in_hand(rt: HostRuntime) -> Result<(), Fail> {
    let mut plan = row_of_two(SumScale)?;
    assert_eq!(rt;
        numbered(second_lift(&mut plan, 1, 0, 2)).map(|second| second.number()),
        Ok(11)
    );
    assert_eq!(rt; plan.own(1, 0), Some(4));
    let mut other = row_of_two(SumScale)?;
    assert_eq!(rt;
        numbered(set_elsewhere(&mut plan, &mut other, 1, 0, 4)).map(numbered),
        Ok(Err(12))
    );
    assert_eq!(rt; plan.own(1, 0), Some(4));
    assert_eq!(rt; other.own(1, 0), Some(4));
    Ok(())
}

// Three entries of three candidates; a pair costs wherever its first candidate is not below its
// second.
fn three_entries() -> Result<Plan<SumScale>, Fail> {
    let pairs = [
        record(0, 0, 1, 0, 2),
        record(0, 1, 1, 0, 2),
        record(0, 1, 1, 1, 2),
        record(0, 2, 1, 0, 2),
        record(0, 2, 1, 1, 2),
        record(0, 2, 1, 2, 2),
        record(1, 0, 2, 0, 1),
        record(1, 1, 2, 0, 1),
        record(1, 1, 2, 1, 1),
        record(1, 2, 2, 0, 1),
        record(1, 2, 2, 1, 1),
        record(1, 2, 2, 2, 1),
    ];
    filled_plan(SumScale, 100, &[3, 3, 3], &[0; 9], &pairs)
}

#[test]
fn projects_and_extends(rt: HostRuntime) -> Result<(), Fail> {
    let mut plan = three_entries()?;
    assert_eq!(rt;
        numbered(moved(&mut plan, Place::Row(0), 0, 1, 1, Place::OwnPenalty)),
        Err(10)
    );
    assert_eq!(rt;
        numbered(moved(&mut plan, Place::Row(0), 0, 2, 2, Place::OwnPenalty)),
        Ok(true)
    );
    assert_eq!(rt;
        numbered(moved(&mut plan, Place::Row(1), 1, 2, 1, Place::OwnPenalty)),
        Ok(true)
    );
    assert_eq!(rt;
        numbered(moved(&mut plan, Place::OwnPenalty, 1, 2, 1, Place::Row(0))),
        Ok(true)
    );
    assert_eq!(rt; plan.cell(0, 1, 0), Some(2));
    assert_eq!(rt; plan.cell(0, 1, 1), Some(2));
    assert_eq!(rt; plan.cell(0, 1, 2), Some(1));
    assert_eq!(rt;
        numbered(moved(&mut plan, Place::Row(0), 0, 1, 1, Place::OwnPenalty)),
        Ok(true)
    );
    assert_eq!(rt; plan.own(0, 1), Some(1));
    assert_eq!(rt; plan.own(0, 2), Some(2));
    assert_eq!(rt; numbered(plan.cost(&[0, 1, 2])), Ok(0));
    assert_eq!(rt; numbered(plan.cost(&[1, 2, 0])), Ok(1));
    assert_eq!(rt; numbered(plan.cost(&[2, 2, 2])), Ok(3));
    Ok(())
}
