// The edges: literals that the garage does not have, and the grouping of digits.
use crate::figures::{Grouped, Text};
use crate::level::{NORTH, Wish};

fn wish(literals: &'static [i32]) -> Wish {
    Wish {
        text: "",
        literals,
        points: 0,
        above: 0,
        below: 0,
    }
}

#[test]
fn an_item_that_the_garage_does_not_have_is_not_true(rt: HostRuntime) {
    assert!(rt; !NORTH.keeps(&wish(&[0, 14, 2_147_483_647])));
    assert!(rt; NORTH.keeps(&wish(&[-14])));
    assert!(rt; NORTH.keeps(&wish(&[-2_147_483_648])));
}

#[test]
fn a_wish_without_literals_is_broken(rt: HostRuntime) {
    assert!(rt; !NORTH.keeps(&wish(&[])));
}

#[test]
fn digits_come_in_groups_of_three(rt: HostRuntime) {
    assert_eq!(rt; Text::of(Grouped(0)).as_str(), "0");
    assert_eq!(rt; Text::of(Grouped(999)).as_str(), "999");
    assert_eq!(rt; Text::of(Grouped(1000)).as_str(), "1,000");
    assert_eq!(rt; Text::of(Grouped(5_000_067)).as_str(), "5,000,067");
    assert_eq!(rt;
        Text::of(Grouped(u64::MAX)).as_str(),
        "18,446,744,073,709,551,615"
    );
}
