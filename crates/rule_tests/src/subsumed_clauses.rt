// Subsumption: a clause that has all the literals of another goes, of equals the later.
use crate::desk::{Outcome, counts, ran, words};
use meaning::report::Ending;
use sheet::buffers::{Desk, Marks};
use sheet::row::{Item, Standing};
use std::process::Abort;
use subsumption::Subsumption;
use weight::Whole;

const LABEL: Item = Item {
    standing: Standing::Label,
    ordinal: 0,
};

// Runs on these words over three items, of which the third is a label, and looks at what is left.
fn leaves<const N: usize>(
    rt: &impl Abort,
    mut sheet: [u16; N],
    limit: u64,
    outcome: Outcome,
    left: &[u16],
) {
    let mut desk = Desk {
        sheet: &mut sheet,
        row: &mut [Item::PLAIN, Item::PLAIN, LABEL],
        stack: &mut [],
        weights: &[Whole { units: 7 }],
        marks: Marks { sheet: N, stack: 0 },
        counts: counts(3, 1),
    };
    assert_eq!(rt; ran(&Subsumption {}, &mut desk, limit), outcome);
    assert_eq!(rt; words(&desk), Some(left));
}

#[test]
fn of_equal_clauses_the_later_goes(rt: HostRuntime) {
    // {1} twice
    leaves(
        &rt,
        [12289, 1, 12289, 1],
        9,
        Ok((1, Ending::Done)),
        &[12289, 1],
    );
    // {1, 2}, {2}, {1, 2}: both of the longer ones go
    leaves(
        &rt,
        [12290, 1, 2, 12289, 2, 12290, 1, 2],
        9,
        Ok((2, Ending::Done)),
        &[12289, 2],
    );
}

#[test]
fn labels_count_and_signs_differ(rt: HostRuntime) {
    // {1, 3} has all of {3}
    leaves(
        &rt,
        [12290, 1, 3, 12289, 3],
        9,
        Ok((1, Ending::Done)),
        &[12289, 3],
    );
    // {1} and {not 1} have nothing in common
    leaves(
        &rt,
        [12289, 1, 12289, 32769],
        9,
        Ok((0, Ending::Done)),
        &[12289, 1, 12289, 32769],
    );
    // the empty clause has no literal that another lacks
    leaves(&rt, [12289, 1, 12288], 9, Ok((1, Ending::Done)), &[12288]);
}

#[test]
fn done_is_said_before_the_limit(rt: HostRuntime) {
    let two = [12289, 1, 12290, 1, 2, 12290, 1, 3];
    leaves(&rt, two, 0, Ok((0, Ending::Limit)), &two);
    leaves(
        &rt,
        two,
        1,
        Ok((1, Ending::Limit)),
        &[12289, 1, 12290, 1, 3],
    );
    leaves(&rt, two, 2, Ok((2, Ending::Done)), &[12289, 1]);
    // no place, and no step allowed
    leaves(&rt, [12289, 1], 0, Ok((0, Ending::Done)), &[12289, 1]);
    leaves(&rt, [], 0, Ok((0, Ending::Done)), &[]);
}

#[test]
fn buffers_that_do_not_hold_together_are_refused(rt: HostRuntime) {
    // item 4 is none, and a label is denied
    leaves(&rt, [12289, 4], 9, Err((8, 1)), &[12289, 4]);
    leaves(&rt, [12289, 32771], 9, Err((8, 1)), &[12289, 32771]);
}
