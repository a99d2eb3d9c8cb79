use crate::{Tier, TooLarge, Weight, Whole, total};

const CEILING: Whole = Whole {
    units: 4_611_686_018_427_387_904,
};

const NOTHING: Whole = Whole { units: 0 };

const ONE: Whole = Whole { units: 1 };

const BEYOND: Whole = Whole {
    units: 18_446_744_073_709_551_615,
};

#[test]
fn the_ceiling_is_reached_but_not_passed(rt: HostRuntime) {
    let below = Whole {
        units: 4_611_686_018_427_387_903,
    };
    assert_eq!(rt; total(&[below, ONE]), Ok(CEILING));
    assert_eq!(rt; total(&[CEILING, NOTHING]), Ok(CEILING));
    assert_eq!(rt; total(&[CEILING, ONE]), Err(TooLarge));
}

#[test]
fn a_lone_weight_above_the_ceiling_is_too_large(rt: HostRuntime) {
    assert_eq!(rt; total(&[BEYOND]), Err(TooLarge));
    assert_eq!(rt; total(&[BEYOND, ONE]), Err(TooLarge));
    assert!(rt; ONE.at_most(&BEYOND) && !BEYOND.at_most(&ONE));
}

#[test]
fn an_empty_slice_totals_zero(rt: HostRuntime) {
    let none: [Whole; 0] = [];
    assert_eq!(rt; total(&none), Ok(NOTHING));
}

#[test]
fn each_part_of_a_tier_has_its_own_ceiling(rt: HostRuntime) {
    let full = Tier {
        above: ONE,
        below: CEILING,
    };
    let more = Tier {
        above: NOTHING,
        below: ONE,
    };
    assert_eq!(rt; total(&[full]), Ok(full));
    assert_eq!(rt; total(&[full, more]), Err(TooLarge));
    assert!(rt; more.at_most(&full) && !full.at_most(&more));
}

#[test]
fn tiers_of_tiers_add_part_by_part_and_compare_from_the_top(rt: HostRuntime) {
    let a = Tier {
        above: ONE,
        below: Tier {
            above: NOTHING,
            below: CEILING,
        },
    };
    let b = Tier {
        above: ONE,
        below: Tier {
            above: ONE,
            below: NOTHING,
        },
    };
    let both = Tier {
        above: Whole { units: 2 },
        below: Tier {
            above: ONE,
            below: CEILING,
        },
    };
    assert_eq!(rt; total(&[a, b]), Ok(both));
    assert!(rt; a.at_most(&b) && !b.at_most(&a));
}
