// Deliver, unwind and settle. A delivered sheet cannot be let go, so every test settles it.
use crate::calls::{CEILING, FIXED, HARD, Lent, NOTHING, Sent, label, soft};
use session::delivered::Delivered;
use session::working::Working;
use sheet::row::{Item, Standing};
use std::process::Abort;
use std::test::Fail;
use weight::Whole;

type Small = Lent<15, 5, 0, 3>;

fn small(rt: &impl Abort) -> Result<(Small, Working), Fail> {
    let mut lent = Lent::of([9; 15], [FIXED; 5], [NOTHING; 3]);
    let working = lent.small(rt)?;
    Ok((lent, working))
}

fn small_answers_unwind(rt: &impl Abort, lent: &Small, d: &Delivered) {
    lent.unwinds(rt, d, [0, 1, 1, 0], [0, 1, 1, 0], (3, 3));
    lent.unwinds(rt, d, [0, 1, 0, 1], [0, 1, 0, 1], (5, 5));
    lent.unwinds(rt, d, [1, 0, 0, 1], [1, 0, 0, 1], (7, 7));
    lent.unwinds(rt, d, [1; 4], [1; 4], (10, 10));
}

fn small_answers_are_refused(rt: &impl Abort, lent: &Small, d: &Delivered) {
    // a byte too few, a byte too many, none
    lent.refuses(rt, d, [0, 1, 1], (9, 4));
    lent.refuses(rt, d, [0, 1, 1, 0, 0], (9, 4));
    lent.refuses(rt, d, [], (9, 4));
    lent.refuses(rt, d, [0, 1, 1, 2], (10, 3));
    // of two such bytes the first
    lent.refuses(rt, d, [0, 255, 2, 0], (10, 1));
    lent.refuses(rt, d, [1, 0, 1, 0], (11, 1));
    lent.refuses(rt, d, [0, 1, 0, 0], (11, 2));
    // of two unmet clauses the first
    lent.refuses(rt, d, [0, 0, 1, 0], (11, 0));
    lent.refuses(rt, d, [0, 0, 0, 0], (11, 0));
    // the length before a byte, the length before a clause, a byte before a clause, and all three
    lent.refuses(rt, d, [0, 1, 2], (9, 4));
    lent.refuses(rt, d, [0, 0, 0], (9, 4));
    lent.refuses(rt, d, [0, 0, 0, 2], (10, 3));
    lent.refuses(rt, d, [2, 0, 0, 0, 0], (9, 4));
}

impl<const S: usize, const R: usize, const W: usize> Lent<S, R, 0, W> {
    // Whatever the answer is, the part that fails is told.
    fn part_comes_first(&self, rt: &impl Abort, d: &Delivered, part: u64) {
        self.refuses(rt, d, [0, 1, 1, 0], (8, part));
        self.refuses(rt, d, [0, 1, 1], (8, part));
        self.refuses(rt, d, [0, 1, 1, 2], (8, part));
        self.refuses(rt, d, [0, 0, 0, 0], (8, part));
    }
}

#[test]
fn an_answer_unwinds_to_a_plan_with_both_costs(rt: HostRuntime) -> Result<(), Fail> {
    let (lent, working) = small(&rt)?;
    let d = lent.deliver(working);
    small_answers_unwind(&rt, &lent, &d);
    let _ = lent.settle(d);
    Ok(())
}

#[test]
fn an_answer_is_refused_by_its_first_cause(rt: HostRuntime) -> Result<(), Fail> {
    let (lent, working) = small(&rt)?;
    let d = lent.deliver(working);
    small_answers_are_refused(&rt, &lent, &d);
    let _ = lent.settle(d);
    Ok(())
}

#[test]
fn damaged_buffers_come_before_every_other_cause(rt: HostRuntime) -> Result<(), Fail> {
    let (lent, working) = small(&rt)?;
    let d = lent.deliver(working);
    // a sheet that gathers, a word too few, a row with one label twice, one item too few, too few weights, too large ones
    let gathers = lent.with_sheet([4098, 1, 2, 12290, 2, 32771, 12290, 3, 4]);
    let cut = lent.with_sheet([12290, 1, 2, 12290, 2, 32771, 12290, 3]);
    let twice = [label(0), label(0), Item::PLAIN, label(2)];
    let short = lent.with_row([label(0), label(1), Item::PLAIN]);
    let large = [Whole { units: CEILING }, Whole { units: 1 }, NOTHING];
    gathers.part_comes_first(&rt, &d, 1);
    cut.part_comes_first(&rt, &d, 1);
    lent.with_row(twice).part_comes_first(&rt, &d, 2);
    short.part_comes_first(&rt, &d, 2);
    lent.with_weights([NOTHING; 2]).part_comes_first(&rt, &d, 4);
    lent.with_weights(large).part_comes_first(&rt, &d, 4);
    // of several parts the first
    let gathers = gathers.with_row(twice).with_weights(large);
    gathers.part_comes_first(&rt, &d, 1);
    let twice = lent.with_row(twice).with_weights(large);
    twice.part_comes_first(&rt, &d, 2);
    // where all is well again, nothing was lost
    small_answers_unwind(&rt, &lent, &d);
    let _ = lent.settle(d);
    Ok(())
}

// The numbers of a working state.
fn numbers(working: &Working) -> (usize, usize) {
    (working.words(), working.items())
}

#[test]
fn delivered_and_settled_back_and_forth(rt: HostRuntime) -> Result<(), Fail> {
    let (lent, mut working) = small(&rt)?;
    let before = lent;
    for _ in 0..3 {
        let d = lent.deliver(working);
        small_answers_unwind(&rt, &lent, &d);
        small_answers_are_refused(&rt, &lent, &d);
        small_answers_unwind(&rt, &lent, &d);
        working = lent.settle(d);
        assert_eq!(rt; numbers(&working), (9, 4));
    }
    let d = lent.deliver(working);
    working = lent.settle(d);
    assert_eq!(rt; numbers(&working), (9, 4));
    assert_eq!(rt; lent, before);
    Ok(())
}

// With no records an answer is its own plan, and so can be unwound again.
#[test]
fn unwinding_twice(rt: HostRuntime) -> Result<(), Fail> {
    let (lent, working) = small(&rt)?;
    let d = lent.deliver(working);
    let mut answer = [1, 0, 0, 1];
    let first = lent.unwind(&d, &mut answer);
    let second = lent.unwind(&d, &mut answer);
    let _ = lent.settle(d);
    assert_eq!(rt; first, Ok((7, 7)));
    assert_eq!(rt; second, Ok((7, 7)));
    assert_eq!(rt; answer, [1, 0, 0, 1]);
    Ok(())
}

// Item 1, a label that costs 5, and items 2 and 3, of which the only clause, {2}, names none but 2.
fn standings(first: Standing, third: Standing) -> [Item; 3] {
    [first, Standing::Plain, third].map(|standing| Item {
        standing,
        ordinal: 0,
    })
}

#[test]
fn retired_items_become_no(rt: HostRuntime) -> Result<(), Fail> {
    let mut lent = Lent::of([9; 6], [Item::PLAIN; 3], [NOTHING]);
    let adds: [Sent<'_>; 2] = [(&[2], HARD, Ok(())), (&[-1], soft(5), Ok(()))];
    let working = lent.worked(&rt, 3, &adds)?;
    let d = lent.deliver(working);
    let labelled = lent.with_row(standings(Standing::Label, Standing::Plain));
    labelled.unwinds(&rt, &d, [1, 1, 1], [1, 1, 1], (5, 5));
    // a retired item becomes no; on the sheet a forced label costs always, a covered one never
    let fixed = lent.with_row(standings(Standing::Label, Standing::Fixed));
    fixed.unwinds(&rt, &d, [1, 1, 1], [1, 1, 0], (5, 5));
    let forced = lent.with_row(standings(Standing::Forced, Standing::Plain));
    forced.unwinds(&rt, &d, [1, 1, 1], [0, 1, 1], (5, 0));
    let covered = lent.with_row(standings(Standing::Covered, Standing::Plain));
    covered.unwinds(&rt, &d, [1, 1, 1], [0, 1, 1], (0, 0));
    let _ = lent.settle(d);
    Ok(())
}

#[test]
fn costs_may_reach_the_ceiling(rt: HostRuntime) -> Result<(), Fail> {
    let most = CEILING - 3;
    let mut lent = Lent::of([9; 6], [Item::PLAIN; 2], [NOTHING; 2]);
    let adds: [Sent<'_>; 2] = [(&[-1], soft(most), Ok(())), (&[-2], soft(3), Ok(()))];
    let working = lent.worked(&rt, 2, &adds)?;
    let d = lent.deliver(working);
    lent.unwinds(&rt, &d, [1, 1], [1, 1], (CEILING, CEILING));
    lent.unwinds(&rt, &d, [1, 0], [1, 0], (most, most));
    lent.unwinds(&rt, &d, [0, 0], [0, 0], (0, 0));
    let _ = lent.settle(d);
    Ok(())
}

#[test]
fn no_items_have_an_empty_answer(rt: HostRuntime) -> Result<(), Fail> {
    let mut lent = Lent::of([], [], []);
    let working = lent.worked(&rt, 0, &[(&[1], HARD, Err((3, 0)))])?;
    let d = lent.deliver(working);
    lent.unwinds(&rt, &d, [], [], (0, 0));
    lent.refuses(&rt, &d, [0], (9, 0));
    let _ = lent.settle(d);
    Ok(())
}

#[test]
fn an_empty_clause_is_met_by_no_answer(rt: HostRuntime) -> Result<(), Fail> {
    let mut lent = Lent::of([9; 2], [Item::PLAIN], []);
    // the first is stored nowhere, so it has no number
    let adds: [Sent<'_>; 2] = [(&[-1, 1], HARD, Ok(())), (&[], HARD, Ok(()))];
    let working = lent.worked(&rt, 1, &adds)?;
    let d = lent.deliver(working);
    lent.refuses(&rt, &d, [0], (11, 0));
    lent.refuses(&rt, &d, [1], (11, 0));
    let _ = lent.settle(d);
    Ok(())
}
