// Filling: each refusal with its list and place, and the order of the checks.
use crate::samples::record;
use plan::Plan;
use plan::records::PairRecord;
use scale::sum::SumScale;

// What a plan answers to lists, with a fault as a user sees it: its number, its list and its place.
type Answer = Result<(), (u32, u32, usize)>;

// The parameters stay, here and below: they are those of `fill`, in its order.
fn answered(
    plan: &mut Plan<SumScale>,
    ceiling: u32,
    counts: &[usize],
    own: &[u32],
    pairs: &[PairRecord],
) -> Answer {
    plan.fill(ceiling, counts, own, pairs).map_err(|fault| (
        fault.refusal.number(),
        fault.list.number(),
        fault.place,
    ))
}

// What a new plan answers to lists.
fn filled(ceiling: u32, counts: &[usize], own: &[u32], pairs: &[PairRecord]) -> Answer {
    let mut plan = Plan::new(SumScale);
    answered(&mut plan, ceiling, counts, own, pairs)
}

#[test]
fn ceilings(rt: HostRuntime) {
    assert_eq!(rt; filled(1, &[1], &[1], &[]), Ok(()));
    assert_eq!(rt; filled(1_000_000, &[1], &[1_000_000], &[]), Ok(()));
    assert_eq!(rt; filled(0, &[1], &[0], &[]), Err((1, 0, 0)));
    assert_eq!(rt; filled(1_000_001, &[1], &[0], &[]), Err((1, 0, 0)));
}

#[test]
fn a_plan_is_filled_once(rt: HostRuntime) {
    let mut plan = Plan::new(SumScale);
    assert_eq!(rt;
        answered(&mut plan, 9, &[], &[], &[]),
        Err((3, 0, 0)),
        "a refused fill leaves the plan empty"
    );
    assert_eq!(rt; answered(&mut plan, 9, &[2], &[3, 4], &[]), Ok(()));
    assert_eq!(rt; answered(&mut plan, 9, &[2], &[3, 4], &[]), Err((2, 0, 0)));
    assert_eq!(rt;
        answered(&mut plan, 0, &[], &[], &[]),
        Err((2, 0, 0)),
        "2 before 1"
    );
    assert_eq!(rt; plan.own(0, 1), Some(4));
}

#[test]
fn counts(rt: HostRuntime) {
    assert_eq!(rt; filled(9, &[1; 16], &[0; 16], &[]), Ok(()));
    assert_eq!(rt; filled(9, &[1; 17], &[0; 17], &[]), Err((3, 0, 16)));
    assert_eq!(rt;
        filled(9, &[0; 17], &[0; 17], &[]),
        Err((3, 0, 16)),
        "too many before a count of 0"
    );
    assert_eq!(rt; filled(9, &[], &[], &[]), Err((3, 0, 0)));
    assert_eq!(rt; filled(9, &[8, 8], &[0; 16], &[]), Ok(()));
    assert_eq!(rt; filled(9, &[1, 0, 9], &[0], &[]), Err((3, 0, 1)));
    assert_eq!(rt; filled(9, &[1, 1, 9], &[0; 11], &[]), Err((3, 0, 2)));
    assert_eq!(rt; filled(0, &[], &[], &[]), Err((1, 0, 0)), "1 before 3");
}

#[test]
fn own_penalties(rt: HostRuntime) {
    assert_eq!(rt; filled(9, &[2, 1], &[9, 9, 9], &[]), Ok(()));
    assert_eq!(rt; filled(9, &[2, 1], &[0, 0], &[]), Err((4, 1, 3)));
    assert_eq!(rt; filled(9, &[2, 1], &[0; 4], &[]), Err((4, 1, 3)));
    assert_eq!(rt; filled(9, &[2, 1], &[9, 10, 11], &[]), Err((5, 1, 1)));
    assert_eq!(rt; filled(9, &[2, 0], &[0], &[]), Err((3, 0, 1)), "3 before 4");
    assert_eq!(rt;
        filled(9, &[2, 1], &[10, 10], &[]),
        Err((4, 1, 3)),
        "4 before 5"
    );
}

#[test]
fn records_by_themselves(rt: HostRuntime) {
    let fine = record(0, 1, 1, 0, 9);
    assert_eq!(rt; filled(9, &[2, 1], &[0; 3], &[fine]), Ok(()));
    assert_eq!(rt;
        filled(9, &[2, 1], &[0; 3], &[fine, record(0, 2, 1, 0, 1)]),
        Err((6, 2, 1)),
        "candidate absent"
    );
    assert_eq!(rt;
        filled(9, &[2, 1], &[0; 3], &[record(0, 0, 1, 1, 1)]),
        Err((6, 2, 0)),
        "choice absent"
    );
    assert_eq!(rt;
        filled(9, &[2, 1], &[0; 3], &[record(0, 0, 2, 0, 1)]),
        Err((6, 2, 0)),
        "entry absent"
    );
    assert_eq!(rt;
        filled(9, &[2, 1], &[0; 3], &[record(1, 0, 0, 0, 1)]),
        Err((6, 2, 0)),
        "higher entry first"
    );
    assert_eq!(rt;
        filled(9, &[2, 1], &[0; 3], &[record(0, 0, 0, 1, 1)]),
        Err((6, 2, 0)),
        "one entry"
    );
    assert_eq!(rt;
        filled(9, &[2, 1], &[0; 3], &[fine, record(0, 0, 1, 0, 10)]),
        Err((5, 2, 1))
    );
    assert_eq!(rt;
        filled(9, &[2, 1], &[0, 0, 10], &[record(0, 2, 1, 0, 10)]),
        Err((5, 1, 2)),
        "the own list before the records"
    );
    assert_eq!(rt;
        filled(9, &[2, 1], &[0; 3], &[record(0, 2, 1, 0, 10)]),
        Err((6, 2, 0)),
        "6 before 5"
    );
}

#[test]
fn repeated_cells(rt: HostRuntime) {
    let first = record(0, 0, 1, 0, 0);
    assert_eq!(rt;
        filled(9, &[2, 1], &[0; 3], &[first, record(0, 1, 1, 0, 0)]),
        Ok(())
    );
    assert_eq!(rt;
        filled(9, &[2, 1], &[0; 3], &[first, first]),
        Err((7, 2, 1)),
        "one of 0 points counts"
    );
    assert_eq!(rt;
        filled(
            9,
            &[2, 1],
            &[0; 3],
            &[first, record(0, 1, 1, 0, 1), record(0, 0, 1, 0, 3)],
        ),
        Err((7, 2, 2))
    );
    assert_eq!(rt;
        filled(9, &[2, 1], &[0; 3], &[first, record(0, 0, 1, 0, 10)]),
        Err((5, 2, 1)),
        "5 before 7"
    );
    assert_eq!(rt;
        filled(9, &[2, 1], &[0; 3], &[first, first, record(1, 0, 0, 0, 1)]),
        Err((7, 2, 1)),
        "the first faulty record"
    );
}

// Records of the first 25 different pairs of eight entries.
fn many_pairs() -> [PairRecord; 25] {
    let pairs = (0..8).flat_map(|entry| (entry + 1..8).map(move |other| (entry, other)));
    let mut records = [record(0, 0, 1, 0, 1); 25];
    for (place, (entry, other)) in records.iter_mut().zip(pairs) {
        *place = record(entry, 0, other, 0, 1);
    }
    records
}

#[test]
fn twenty_four_pairs(rt: HostRuntime) {
    let records = many_pairs();
    assert_eq!(rt; filled(9, &[1; 8], &[0; 8], &records[0..24]), Ok(()));
    assert_eq!(rt; filled(9, &[1; 8], &[0; 8], &records), Err((8, 2, 24)));
    let mut repeated = records;
    repeated[24] = records[3];
    assert_eq!(rt;
        filled(9, &[1; 8], &[0; 8], &repeated),
        Err((7, 2, 24)),
        "a repeated cell begins no pair"
    );
}

// Pairs are numbered as they first occur.
#[test]
fn pairs_in_order(rt: HostRuntime) {
    let mut plan = Plan::new(SumScale);
    let lists = [
        record(1, 0, 2, 1, 5),
        record(0, 1, 1, 0, 6),
        record(1, 1, 2, 0, 7),
    ];
    assert_eq!(rt; answered(&mut plan, 9, &[2, 2, 2], &[0; 6], &lists), Ok(()));
    assert_eq!(rt; plan.pairs(), 2);
    assert_eq!(rt; plan.pair(0), Some((1, 2)));
    assert_eq!(rt; plan.pair(1), Some((0, 1)));
    assert_eq!(rt; plan.pair(2), None);
    assert_eq!(rt; plan.cell(0, 0, 1), Some(5));
    assert_eq!(rt; plan.cell(0, 1, 0), Some(7));
    assert_eq!(rt; plan.cell(0, 0, 0), Some(0));
    assert_eq!(rt; plan.cell(1, 1, 0), Some(6));
    assert_eq!(rt; plan.cell(1, 2, 0), None);
}
