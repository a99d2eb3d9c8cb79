// A small instance shrunk by three rules, and its answers unwound along the records that they left.
use crate::calls::{FIXED, Lent, NOTHING};
use covering::Covering;
use elimination::Elimination;
use meaning::report::Ending;
use propagation::Propagation;
use rules::pile::Sequence;
use sheet::row::Standing;
use std::test::Fail;

const SMALL: Lent<15, 4, 8, 3> = Lent {
    sheet: [9; 15],
    row: [FIXED; 4],
    stack: [0; 8],
    weights: [NOTHING; 3],
};

#[test]
fn answers_unwind_along_the_records(rt: HostRuntime) -> Result<(), Fail> {
    let mut lent = SMALL;
    let mut working = lent.small(&rt)?;
    // item 3 goes for {2, 4}; label 1 is covered by 2; the unit 2 is forced, and nothing is left
    let pile = Sequence {
        first: Elimination {},
        second: Sequence {
            first: Covering {},
            second: Propagation {},
        },
    };
    assert_eq!(rt; lent.run(&mut working, &pile, 9), Ok((3, Ending::Done)));
    assert_eq!(rt; working.words(), 0);
    assert_eq!(rt; lent.stack, [3, 4, 3, 4098, 2, 2, 12289, 0]);
    let d = lent.deliver(working);
    lent.unwinds(&rt, &d, [0, 0, 0, 0], [0, 1, 1, 0], (3, 3));
    lent.unwinds(&rt, &d, [1, 0, 1, 1], [0, 1, 0, 1], (5, 5));
    // the newest record's witness is none of its literals
    let damaged = Lent {
        stack: [3, 4, 3, 4098, 2, 3, 12289, 0],
        ..lent
    };
    damaged.refuses(&rt, &d, [0, 0, 0, 0], (8, 3));
    let _ = lent.settle(d);
    Ok(())
}

#[test]
fn the_limit_is_shared_by_a_pile(rt: HostRuntime) -> Result<(), Fail> {
    let mut lent = SMALL;
    let mut working = lent.small(&rt)?;
    // the first is done with the limit used up; the second finds a place and may make no step
    let pile = Sequence {
        first: Elimination {},
        second: Covering {},
    };
    assert_eq!(rt; lent.run(&mut working, &pile, 1), Ok((1, Ending::Limit)));
    assert_eq!(rt; working.words(), 6);
    assert_eq!(rt; lent.row[0].standing, Standing::Label);
    Ok(())
}
