// Run, with deliver, unwind and settle between the runs, and with refused calls in the middle.
use crate::calls::{FIXED, HARD, Lent, NOTHING, soft, told};
use meaning::report::Ending;
use rules::pile::Repetition;
use session::working::Working;
use std::process::Abort;
use std::test::Fail;
use subsumption::Subsumption;
use weight::Whole;

type Repeated = Lent<20, 3, 0, 1>;

// {1, 2}, {1, 2, 3}, {2, not 3} and {1, 2} again, and item 1 costs 5 as its own label.
fn repeated(rt: &impl Abort) -> Result<(Repeated, Working), Fail> {
    let mut lent = Lent::of([9; 20], [FIXED; 3], [NOTHING; 1]);
    let working = lent.worked(
        rt,
        3,
        &[
            (&[1, 2], HARD, Ok(())),
            (&[1, 2, 3], HARD, Ok(())),
            (&[2, -3], HARD, Ok(())),
            (&[2, 1, 1], HARD, Ok(())),
            (&[-1], soft(5), Ok(())),
        ],
    )?;
    Ok((lent, working))
}

#[test]
fn runs_between_deliveries(rt: HostRuntime) -> Result<(), Fail> {
    let (mut lent, mut working) = repeated(&rt)?;
    let rule = Subsumption {};
    assert_eq!(rt; lent.run(&mut working, &rule, 1), Ok((1, Ending::Limit)));
    assert_eq!(rt; working.words(), 9);
    let d = lent.deliver(working);
    lent.unwinds(&rt, &d, [1, 0, 0], [1, 0, 0], (5, 5));
    lent.refuses(&rt, &d, [0, 0, 1], (11, 0));
    working = lent.settle(d);
    // what is left to do is done in rounds, the last of them without a step
    let pile = Repetition { rule, rounds: 5 };
    assert_eq!(rt; lent.run(&mut working, &pile, 9), Ok((1, Ending::Done)));
    assert_eq!(rt; working.words(), 6);
    let d = lent.deliver(working);
    lent.unwinds(&rt, &d, [0, 1, 0], [0, 1, 0], (0, 0));
    working = lent.settle(d);
    assert_eq!(rt; working.items(), 3);
    Ok(())
}

#[test]
fn a_refused_run_changes_nothing(rt: HostRuntime) -> Result<(), Fail> {
    let (mut lent, mut working) = repeated(&rt)?;
    let rule = Subsumption {};
    let before = lent;
    // a word too few, a row too short, weights too few
    let Lent {
        sheet,
        row,
        stack,
        weights,
    } = &mut lent;
    let answer = working.run(&rule, &mut [9; 5], row, stack, weights, 9);
    assert_eq!(rt; answer.map_err(told), Err((8, 1)));
    let answer = working.run(&rule, sheet, &mut [], stack, weights, 9);
    assert_eq!(rt; answer.map_err(told), Err((8, 2)));
    let none: [Whole; 0] = [];
    let answer = working.run(&rule, sheet, row, stack, &none, 9);
    assert_eq!(rt; answer.map_err(told), Err((8, 4)));
    assert_eq!(rt; lent, before);
    assert_eq!(rt; working.words(), 13);
    assert_eq!(rt; lent.run(&mut working, &rule, 0), Ok((0, Ending::Limit)));
    assert_eq!(rt; lent.run(&mut working, &rule, 2), Ok((2, Ending::Done)));
    assert_eq!(rt; working.words(), 6);
    Ok(())
}
