// Literals sent, and what is stored of them.
use crate::{Flags, first_bad};

#[test]
fn a_literal_is_bad_at_zero_and_beyond_the_items(rt: HostRuntime) {
    assert_eq!(rt; first_bad(&[1, -3, 3], 3), None);
    assert_eq!(rt; first_bad(&[1, 0, 4], 3), Some(1));
    assert_eq!(rt; first_bad(&[1, -3, -4], 3), Some(2));
    assert_eq!(rt; first_bad(&[-2147483648], 2000), Some(0));
}

#[test]
fn repeats_collapse_and_words_ascend(rt: HostRuntime) {
    let flags = Flags::of(&[7, -3, 7, 2, 7]);
    let mut sheet = [9; 5];
    assert_eq!(rt; flags.write(&mut sheet, 1), 4);
    assert_eq!(rt; sheet, [9, 2, 7, 32771, 9]);
    assert_eq!(rt; flags.len(), 3);
}

#[test]
fn both_signs_of_an_item_are_a_tautology(rt: HostRuntime) {
    assert!(rt; Flags::of(&[2000, 5, -2000]).is_tautology());
}

#[test]
fn one_sign_of_each_item_is_no_tautology(rt: HostRuntime) {
    assert!(rt; !Flags::of(&[-1, 2, -1]).is_tautology());
}
