// Variable elimination: the lowest plain item goes that gives no more resolvents than it has clauses.
use crate::desk::{FIXED, Lent, P, left, of, whole};
use elimination::Elimination;
use meaning::report::Ending;
use sheet::row::Standing;

// The clauses {1, 2} and {3, not 1} over three plain items, with so much room behind them.
fn lent<const S: usize, const T: usize>(sheet: [u16; S], stack: [u16; T]) -> Lent<S, 3, T, 0> {
    Lent {
        sheet,
        used: 6,
        row: [P; 3],
        stack,
        weights: [],
    }
}

const TWO: [u16; 6] = [12290, 1, 2, 12290, 3, 32769];

const ROOM: [u16; 9] = [12290, 1, 2, 12290, 3, 32769, 0, 0, 0];

#[test]
fn the_resolvent_stays_and_the_positive_clause_is_recorded(rt: HostRuntime) {
    lent(ROOM, [0; 8]).leaves(
        &rt,
        &Elimination {},
        0,
        Ok((0, Ending::Limit)),
        left(&TWO, &[], &[P; 3]),
    );
    lent(ROOM, [0; 8]).leaves(
        &rt,
        &Elimination {},
        1,
        Ok((1, Ending::Limit)),
        left(&[12290, 2, 3], &[1, 2, 1, 4098], &[FIXED, P, P]),
    );
    lent(ROOM, [0; 8]).leaves(
        &rt,
        &Elimination {},
        9,
        Ok((3, Ending::Done)),
        left(&[], &[1, 2, 1, 4098, 2, 3, 2, 4098], &[FIXED; 3]),
    );
}

#[test]
fn where_words_do_not_fit_both_marks_are_as_before(rt: HostRuntime) {
    // the resolvent takes three words behind the six in use, the record four
    lent(ROOM, [0; 4]).leaves(
        &rt,
        &Elimination {},
        1,
        Ok((1, Ending::Limit)),
        left(&[12290, 2, 3], &[1, 2, 1, 4098], &[FIXED, P, P]),
    );
    lent([12290, 1, 2, 12290, 3, 32769, 0, 0], [0; 4]).leaves(
        &rt,
        &Elimination {},
        1,
        Ok((0, Ending::Full)),
        left(&TWO, &[], &[P; 3]),
    );
    lent(ROOM, [0; 3]).leaves(
        &rt,
        &Elimination {},
        1,
        Ok((0, Ending::Full)),
        left(&TWO, &[], &[P; 3]),
    );
}

#[test]
fn a_plain_item_in_no_clause_is_fixed_and_a_label_stays(rt: HostRuntime) {
    let plain = Lent {
        sheet: [],
        used: 0,
        row: [P],
        stack: [],
        weights: [],
    };
    plain.leaves(
        &rt,
        &Elimination {},
        0,
        Ok((0, Ending::Limit)),
        left(&[], &[], &[P]),
    );
    plain.leaves(
        &rt,
        &Elimination {},
        9,
        Ok((1, Ending::Done)),
        left(&[], &[], &[FIXED]),
    );
    let label = Lent {
        sheet: [],
        used: 0,
        row: [of(Standing::Label, 0)],
        stack: [],
        weights: [whole(7)],
    };
    let kept = [of(Standing::Label, 0)];
    label.leaves(
        &rt,
        &Elimination {},
        0,
        Ok((0, Ending::Done)),
        left(&[], &[], &kept),
    );
}

#[test]
fn a_resolvent_that_is_always_met_is_left_out(rt: HostRuntime) {
    // {1, 2}, {not 1, not 2}: the one resolvent has both signs of item 2
    let two = Lent {
        sheet: [12290, 1, 2, 12290, 32769, 32770],
        used: 6,
        row: [P; 2],
        stack: [0; 4],
        weights: [],
    };
    two.leaves(
        &rt,
        &Elimination {},
        9,
        Ok((2, Ending::Done)),
        left(&[], &[1, 2, 1, 4098], &[FIXED; 2]),
    );
}

#[test]
fn positive_clauses_are_outermost(rt: HostRuntime) {
    // {1, 2}, {1, 3}, {4, not 1}, {5, not 1}
    let mut sheet = [0; 24];
    sheet[..12].copy_from_slice(&[12290, 1, 2, 12290, 1, 3, 12290, 4, 32769, 12290, 5, 32769]);
    let four = Lent {
        sheet,
        used: 12,
        row: [P; 5],
        stack: [0; 8],
        weights: [],
    };
    // {2, 4}, {2, 5}, {3, 4}, {3, 5}
    let resolvents = [12290, 2, 4, 12290, 2, 5, 12290, 3, 4, 12290, 3, 5];
    four.leaves(
        &rt,
        &Elimination {},
        1,
        Ok((1, Ending::Limit)),
        left(
            &resolvents,
            &[1, 2, 1, 4098, 1, 3, 1, 4098],
            &[FIXED, P, P, P, P],
        ),
    );
}
