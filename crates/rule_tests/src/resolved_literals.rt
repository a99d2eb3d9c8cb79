// Self-subsuming resolution: a plain literal leaves the first clause that another one yields the resolvent of.
use crate::desk::{WITH_A_LABEL, left, with_a_label};
use meaning::report::Ending;
use strengthening::Strengthening;

#[test]
fn a_literal_leaves_and_nothing_is_recorded(rt: HostRuntime) {
    // {1, 2, 3}, {2, not 1}
    let two = [12291, 1, 2, 3, 12290, 2, 32769];
    with_a_label(two, []).leaves(
        &rt,
        &Strengthening {},
        0,
        Ok((0, Ending::Limit)),
        left(&two, &[], &WITH_A_LABEL),
    );
    with_a_label(two, []).leaves(
        &rt,
        &Strengthening {},
        9,
        Ok((1, Ending::Done)),
        left(&[12290, 2, 3, 12290, 2, 32769], &[], &WITH_A_LABEL),
    );
}

#[test]
fn of_two_clauses_the_first_is_made_shorter(rt: HostRuntime) {
    // {1, 2}, {2, not 1}: either clause could lose a literal, and the first does
    let two = [12290, 1, 2, 12290, 2, 32769];
    with_a_label(two, []).leaves(
        &rt,
        &Strengthening {},
        9,
        Ok((1, Ending::Done)),
        left(&[12289, 2, 12290, 2, 32769], &[], &WITH_A_LABEL),
    );
}

#[test]
fn of_two_literals_the_lowest_leaves_first(rt: HostRuntime) {
    // {1, 2}, {not 1}, {not 2}
    let three = [12290, 1, 2, 12289, 32769, 12289, 32770];
    with_a_label(three, []).leaves(
        &rt,
        &Strengthening {},
        1,
        Ok((1, Ending::Limit)),
        left(&[12289, 2, 12289, 32769, 12289, 32770], &[], &WITH_A_LABEL),
    );
    with_a_label(three, []).leaves(
        &rt,
        &Strengthening {},
        9,
        Ok((2, Ending::Done)),
        left(&[12288, 12289, 32769, 12289, 32770], &[], &WITH_A_LABEL),
    );
}

#[test]
fn done_is_said_before_the_limit_where_nothing_may_leave(rt: HostRuntime) {
    with_a_label([12290, 1, 2], []).leaves(
        &rt,
        &Strengthening {},
        0,
        Ok((0, Ending::Done)),
        left(&[12290, 1, 2], &[], &WITH_A_LABEL),
    );
}
