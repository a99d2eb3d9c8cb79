// Blocked clauses: the first clause with a plain literal that blocks it goes, and is recorded with the lowest such literal.
use crate::desk::{WITH_A_LABEL, left, with_a_label};
use blocking::Blocking;
use meaning::report::Ending;

#[test]
fn a_literal_that_none_denies_blocks(rt: HostRuntime) {
    // {1, 3}
    let one = with_a_label([12290, 1, 3], [0; 4]);
    one.leaves(
        &rt,
        &Blocking {},
        0,
        Ok((0, Ending::Limit)),
        left(&[12290, 1, 3], &[], &WITH_A_LABEL),
    );
    one.leaves(
        &rt,
        &Blocking {},
        9,
        Ok((1, Ending::Done)),
        left(&[], &[1, 3, 1, 8194], &WITH_A_LABEL),
    );
}

#[test]
fn a_literal_blocks_where_another_is_denied_too(rt: HostRuntime) {
    // {1, 2}, {not 1, not 2}
    let two = with_a_label([12290, 1, 2, 12290, 32769, 32770], [0; 8]);
    two.leaves(
        &rt,
        &Blocking {},
        1,
        Ok((1, Ending::Limit)),
        left(&[12290, 32769, 32770], &[1, 2, 1, 8194], &WITH_A_LABEL),
    );
    two.leaves(
        &rt,
        &Blocking {},
        9,
        Ok((2, Ending::Done)),
        left(
            &[],
            &[1, 2, 1, 8194, 32769, 32770, 32769, 8194],
            &WITH_A_LABEL,
        ),
    );
}

#[test]
fn the_second_literal_is_the_witness_where_the_first_does_not_block(rt: HostRuntime) {
    // {1, 2}, {3, not 1}: item 1 is denied, item 2 is not
    let two = with_a_label([12290, 1, 2, 12290, 3, 32769], [0; 8]);
    two.leaves(
        &rt,
        &Blocking {},
        9,
        Ok((2, Ending::Done)),
        left(&[], &[1, 2, 2, 8194, 3, 32769, 32769, 8194], &WITH_A_LABEL),
    );
}

#[test]
fn labels_block_nothing(rt: HostRuntime) {
    // {1, 2}, {3, not 1}, {3, not 2}: the label is no witness and no other denial
    let none = [12290, 1, 2, 12290, 3, 32769, 12290, 3, 32770];
    with_a_label(none, [0; 4]).leaves(
        &rt,
        &Blocking {},
        0,
        Ok((0, Ending::Done)),
        left(&none, &[], &WITH_A_LABEL),
    );
}

#[test]
fn the_first_place_decides_whether_its_record_fits(rt: HostRuntime) {
    // {1, 2, 3}, {2}: the record of the first takes five words, that of the second would take three
    let two = [12291, 1, 2, 3, 12289, 2];
    with_a_label(two, [0; 4]).leaves(
        &rt,
        &Blocking {},
        9,
        Ok((0, Ending::Full)),
        left(&two, &[], &WITH_A_LABEL),
    );
}
