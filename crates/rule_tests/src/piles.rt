// Rules made of rules: how the limit, the steps and the ending go on from one to the next.
use crate::desk::{Outcome, counts, ran, words};
use meaning::report::Ending;
use rules::pile::{Repetition, Sequence};
use rules::rule::Rule;
use sheet::buffers::{Desk, Marks};
use sheet::row::Item;
use std::process::Abort;
use subsumption::Subsumption;
use weight::Whole;

const ONCE: Subsumption = Subsumption {};

// {1} and two clauses that have it
const TWO_PLACES: [u16; 8] = [12289, 1, 12290, 1, 2, 12290, 1, 3];

const ONE_PLACE: [u16; 5] = [12289, 1, 12290, 1, 3];

fn rounds(rounds: u64) -> Repetition<Subsumption> {
    Repetition { rule: ONCE, rounds }
}

fn comes_to<R: Rule<Whole>>(rt: &impl Abort, pile: &R, limit: u64, outcome: Outcome, left: &[u16]) {
    let mut sheet = TWO_PLACES;
    let mut desk = Desk {
        sheet: &mut sheet,
        row: &mut [Item::PLAIN; 3],
        stack: &mut [],
        weights: &[],
        marks: Marks { sheet: 8, stack: 0 },
        counts: counts(3, 0),
    };
    assert_eq!(rt; ran(pile, &mut desk, limit), outcome);
    assert_eq!(rt; words(&desk), Some(left));
}

#[test]
fn the_second_rule_gets_what_the_first_leaves(rt: HostRuntime) {
    let pile = Sequence {
        first: ONCE,
        second: ONCE,
    };
    comes_to(&rt, &pile, 0, Ok((0, Ending::Limit)), &TWO_PLACES);
    // the first uses the limit up before it is done, so the second is not asked
    comes_to(&rt, &pile, 1, Ok((1, Ending::Limit)), &ONE_PLACE);
    // the first is done with the limit used up, and the second is asked and done
    comes_to(&rt, &pile, 2, Ok((2, Ending::Done)), &[12289, 1]);
}

#[test]
fn rounds_end_done_where_one_makes_no_step(rt: HostRuntime) {
    comes_to(&rt, &rounds(0), 9, Ok((0, Ending::Rounds)), &TWO_PLACES);
    comes_to(&rt, &rounds(1), 9, Ok((2, Ending::Rounds)), &[12289, 1]);
    let two = rounds(2);
    comes_to(&rt, &two, 9, Ok((2, Ending::Done)), &[12289, 1]);
    comes_to(&rt, &two, 1, Ok((1, Ending::Limit)), &ONE_PLACE);
}

#[test]
fn a_pile_in_a_pile(rt: HostRuntime) {
    let pile = Sequence {
        first: rounds(1),
        second: ONCE,
    };
    // the rounds are made, so the second rule is asked; it is done
    comes_to(&rt, &pile, 9, Ok((2, Ending::Done)), &[12289, 1]);
}

#[test]
fn no_round_refuses_damaged_buffers_all_the_same(rt: HostRuntime) {
    let mut desk = Desk {
        sheet: &mut [12289, 4],
        row: &mut [Item::PLAIN; 3],
        stack: &mut [],
        weights: &[],
        marks: Marks { sheet: 2, stack: 0 },
        counts: counts(3, 0),
    };
    assert_eq!(rt; ran(&rounds(0), &mut desk, 9), Err((8, 1)));
}
