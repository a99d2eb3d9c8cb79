// Unit propagation: the first unit is recorded and made true, and its item is retired.
use crate::desk::{FIXED, Lent, P, left, of, whole};
use meaning::report::Ending;
use propagation::Propagation;
use sheet::row::Standing;

// These clauses over three plain items, with this stack.
fn lent<const S: usize, const T: usize>(sheet: [u16; S], stack: [u16; T]) -> Lent<S, 3, T, 0> {
    Lent {
        sheet,
        used: S,
        row: [P; 3],
        stack,
        weights: [],
    }
}

#[test]
fn a_unit_sets_off_the_next(rt: HostRuntime) {
    // {1}, {1, 2}, {3, not 1}
    let three = [12289, 1, 12290, 1, 2, 12290, 3, 32769];
    lent(three, [0; 6]).leaves(
        &rt,
        &Propagation {},
        0,
        Ok((0, Ending::Limit)),
        left(&three, &[], &[P; 3]),
    );
    lent(three, [0; 6]).leaves(
        &rt,
        &Propagation {},
        1,
        Ok((1, Ending::Limit)),
        left(&[12289, 3], &[1, 1, 12289], &[FIXED, P, P]),
    );
    lent(three, [0; 6]).leaves(
        &rt,
        &Propagation {},
        9,
        Ok((2, Ending::Done)),
        left(&[], &[1, 1, 12289, 3, 3, 12289], &[FIXED, P, FIXED]),
    );
}

#[test]
fn a_record_takes_three_words(rt: HostRuntime) {
    let three = [12289, 1, 12290, 1, 2, 12290, 3, 32769];
    lent(three, [0; 2]).leaves(
        &rt,
        &Propagation {},
        9,
        Ok((0, Ending::Full)),
        left(&three, &[], &[P; 3]),
    );
    lent(three, [0; 5]).leaves(
        &rt,
        &Propagation {},
        9,
        Ok((1, Ending::Full)),
        left(&[12289, 3], &[1, 1, 12289], &[FIXED, P, P]),
    );
}

#[test]
fn done_is_said_before_the_limit_where_no_unit_is(rt: HostRuntime) {
    lent([12290, 1, 2], [0; 0]).leaves(
        &rt,
        &Propagation {},
        0,
        Ok((0, Ending::Done)),
        left(&[12290, 1, 2], &[], &[P; 3]),
    );
}

#[test]
fn the_denial_leaves_the_other_clauses(rt: HostRuntime) {
    // {not 1}, {1, 2}
    lent([12289, 32769, 12290, 1, 2], [0; 3]).leaves(
        &rt,
        &Propagation {},
        1,
        Ok((1, Ending::Limit)),
        left(&[12289, 2], &[32769, 32769, 12289], &[FIXED, P, P]),
    );
    // {1}, {not 1}: the empty clause is left
    lent([12289, 1, 12289, 32769], [0; 6]).leaves(
        &rt,
        &Propagation {},
        9,
        Ok((1, Ending::Done)),
        left(&[12288], &[1, 1, 12289], &[FIXED, P, P]),
    );
}

#[test]
fn a_label_is_forced_and_keeps_its_ordinal(rt: HostRuntime) {
    // {3}, {1, 3}
    let label = Lent {
        sheet: [12289, 3, 12290, 1, 3],
        used: 5,
        row: [P, P, of(Standing::Label, 0)],
        stack: [0; 3],
        weights: [whole(7)],
    };
    let forced = [P, P, of(Standing::Forced, 0)];
    label.leaves(
        &rt,
        &Propagation {},
        9,
        Ok((1, Ending::Done)),
        left(&[], &[3, 3, 12289], &forced),
    );
}
