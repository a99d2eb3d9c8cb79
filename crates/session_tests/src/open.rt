use crate::calls::{Answer, FIXED, Lent, label, soft, told};
use session::gathering::open::open;
use sheet::row::Item;
use std::test::Fail;
use weight::Whole;

fn answer(items: u64, row: &mut [Item]) -> Answer {
    let none: [Whole; 0] = [];
    open(items, &[], row, &[], &none).map_err(told)?;
    Ok(())
}

#[test]
fn at_most_two_thousand_items_are_opened(rt: HostRuntime) {
    let mut row = [Item::PLAIN; 2001];
    assert_eq!(rt; answer(0, &mut []), Ok(()));
    assert_eq!(rt; answer(2000, &mut row), Ok(()));
    assert_eq!(rt; answer(2001, &mut row), Err((1, 2001)));
    // one more than 32 bits hold
    assert_eq!(rt; answer(4_294_967_296, &mut row), Err((1, 4_294_967_296)));
    // with no row either
    assert_eq!(rt; answer(u64::MAX, &mut []), Err((1, u64::MAX)));
}

#[test]
fn a_row_one_short_is_refused_and_left_as_it_was(rt: HostRuntime) {
    let mut row = [FIXED, label(1)];
    assert_eq!(rt; answer(3, &mut row), Err((2, 2)));
    assert_eq!(rt; row, [FIXED, label(1)]);
    assert_eq!(rt; answer(1, &mut []), Err((2, 0)));
    assert_eq!(rt; answer(2000, &mut [Item::PLAIN; 1999]), Err((2, 1999)));
}

#[test]
fn items_become_plain_and_records_behind_them_stay(rt: HostRuntime) {
    let mut row = [FIXED, label(1), FIXED, label(2)];
    assert_eq!(rt; answer(2, &mut row), Ok(()));
    assert_eq!(rt; row, [Item::PLAIN, Item::PLAIN, FIXED, label(2)]);
}

#[test]
fn what_the_buffers_held_before_means_nothing(rt: HostRuntime) -> Result<(), Fail> {
    let mut lent = Lent {
        sheet: [65535; 6],
        row: [FIXED, label(1), label(1)],
        stack: [7; 3],
        weights: [Whole { units: u64::MAX }; 2],
    };
    let gathering = lent.gathered(&rt, 1, &[(&[1], soft(5), Ok(()))])?;
    assert_eq!(rt; lent.sheet, [8193, 1, 0, 65535, 65535, 65535]);
    lent.closed(gathering)?;
    assert_eq!(rt; lent.row, [Item::PLAIN, label(0), label(1)]);
    Ok(())
}
