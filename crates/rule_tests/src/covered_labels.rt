// Covered labels: the lowest label goes whose clauses all have another label that is no dearer.
use crate::desk::{Lent, left, of, whole};
use covering::Covering;
use meaning::report::Ending;
use sheet::row::Standing;

// These clauses over two labels with these weights.
fn lent<const S: usize>(sheet: [u16; S], first: u64, second: u64) -> Lent<S, 2, 0, 2> {
    Lent {
        sheet,
        used: S,
        row: [of(Standing::Label, 0), of(Standing::Label, 1)],
        stack: [],
        weights: [whole(first), whole(second)],
    }
}

#[test]
fn of_two_that_cover_each_other_the_lower_goes(rt: HostRuntime) {
    let both = [of(Standing::Label, 0), of(Standing::Label, 1)];
    let second = [of(Standing::Covered, 0), of(Standing::Label, 1)];
    // {1, 2}
    lent([12290, 1, 2], 7, 7).leaves(
        &rt,
        &Covering {},
        0,
        Ok((0, Ending::Limit)),
        left(&[12290, 1, 2], &[], &both),
    );
    lent([12290, 1, 2], 7, 7).leaves(
        &rt,
        &Covering {},
        9,
        Ok((1, Ending::Done)),
        left(&[12289, 2], &[], &second),
    );
}

#[test]
fn a_cheaper_label_covers_a_dearer_one_alone(rt: HostRuntime) {
    let first = [of(Standing::Label, 0), of(Standing::Covered, 1)];
    lent([12290, 1, 2], 5, 7).leaves(
        &rt,
        &Covering {},
        9,
        Ok((1, Ending::Done)),
        left(&[12289, 1], &[], &first),
    );
}

#[test]
fn a_label_in_no_clause_is_covered_by_any_that_is_no_dearer(rt: HostRuntime) {
    let second = [of(Standing::Covered, 0), of(Standing::Label, 1)];
    let first = [of(Standing::Label, 0), of(Standing::Covered, 1)];
    lent([], 7, 7).leaves(
        &rt,
        &Covering {},
        9,
        Ok((1, Ending::Done)),
        left(&[], &[], &second),
    );
    lent([], 5, 7).leaves(
        &rt,
        &Covering {},
        9,
        Ok((1, Ending::Done)),
        left(&[], &[], &first),
    );
}

#[test]
fn a_label_covers_where_it_stands_in_every_clause_of_the_other(rt: HostRuntime) {
    let both = [of(Standing::Label, 0), of(Standing::Label, 1)];
    let first = [of(Standing::Label, 0), of(Standing::Covered, 1)];
    // {1, 2}, {1}: the first label stands in a clause without the second
    let two = [12290, 1, 2, 12289, 1];
    lent(two, 7, 7).leaves(
        &rt,
        &Covering {},
        9,
        Ok((1, Ending::Done)),
        left(&[12289, 1, 12289, 1], &[], &first),
    );
    lent(two, 7, 5).leaves(
        &rt,
        &Covering {},
        9,
        Ok((0, Ending::Done)),
        left(&two, &[], &both),
    );
}

#[test]
fn the_limit_is_said_where_a_place_is_left(rt: HostRuntime) {
    let labels = [
        of(Standing::Label, 0),
        of(Standing::Label, 1),
        of(Standing::Label, 2),
    ];
    let after = [
        of(Standing::Covered, 0),
        of(Standing::Label, 1),
        of(Standing::Label, 2),
    ];
    // {1, 2, 3}
    let three = Lent {
        sheet: [12291, 1, 2, 3],
        used: 4,
        row: labels,
        stack: [],
        weights: [whole(7); 3],
    };
    three.leaves(
        &rt,
        &Covering {},
        1,
        Ok((1, Ending::Limit)),
        left(&[12290, 2, 3], &[], &after),
    );
}
