use crate::calls::{CEILING, HARD, Lent, NOTHING, soft, told};
use session::claim::Claim;
use session::gathering::open::open;
use sheet::row::Item;
use std::test::Fail;
use weight::{Tier, Whole};

#[test]
fn a_literal_that_names_no_item_is_refused_with_its_place(rt: HostRuntime) -> Result<(), Fail> {
    let mut lent = Lent::of([9; 3], [Item::PLAIN; 3], []);
    let mut gathering = lent.gathered(
        &rt,
        3,
        &[
            (&[0], HARD, Err((3, 0))),
            (&[1, 4], HARD, Err((3, 1))),
            (&[1, -3, -4], HARD, Err((3, 2))),
            (&[-2147483648], HARD, Err((3, 0))),
            (&[3, 2147483647], HARD, Err((3, 1))),
            // the first of two, and its place before repeats collapse
            (&[2, 2, 1, 2, 9, 0], HARD, Err((3, 4))),
            // before anything else that is wrong with a soft
            (&[1, 2, 3, 0], soft(u64::MAX), Err((3, 3))),
        ],
    )?;
    assert_eq!(rt; lent.sheet, [9; 3]);
    lent.send(&rt, &mut gathering, &[(&[3, -1], HARD, Ok(()))]);
    assert_eq!(rt; lent.sheet, [4098, 3, 32769]);
    Ok(())
}

#[test]
fn repeats_collapse_and_words_ascend(rt: HostRuntime) -> Result<(), Fail> {
    let mut lent = Lent::of([9; 5], [Item::PLAIN; 3], []);
    lent.gathered(
        &rt,
        3,
        &[(&[2, -3, 2], HARD, Ok(())), (&[-2; 5000], HARD, Ok(()))],
    )?;
    assert_eq!(rt; lent.sheet, [4098, 2, 32771, 4097, 32770]);
    Ok(())
}

// What an add takes in may be far longer than what it stores.
#[test]
fn a_million_repeats_collapse(rt: HostRuntime) -> Result<(), Fail> {
    let mut lent = Lent::of([9; 2], [Item::PLAIN; 2], []);
    let repeats = vec![in rt.alloc(); -2; 1_000_000]?;
    lent.gathered(&rt, 2, &[(&repeats, HARD, Ok(()))])?;
    assert_eq!(rt; lent.sheet, [4097, 32770]);
    Ok(())
}

#[test]
fn a_soft_ends_with_its_ordinal_and_has_its_weight_there(rt: HostRuntime) -> Result<(), Fail> {
    let mut lent = Lent::of([9; 10], [Item::PLAIN; 3], [NOTHING; 4]);
    lent.gathered(
        &rt,
        3,
        &[
            (&[-1, 3], soft(5), Ok(())),
            (&[], HARD, Ok(())),
            (&[], soft(4), Ok(())),
            (&[-2], soft(0), Ok(())),
        ],
    )?;
    assert_eq!(rt;
        lent.sheet,
        [8194, 3, 32769, 0, 4096, 8192, 1, 8193, 32770, 2]
    );
    assert_eq!(rt;
        lent.weights,
        [Whole { units: 5 }, Whole { units: 4 }, NOTHING, NOTHING]
    );
    Ok(())
}

#[test]
fn a_soft_wants_a_place_for_its_weight(rt: HostRuntime) -> Result<(), Fail> {
    let mut lent = Lent::of([9; 7], [Item::PLAIN; 1], []);
    let mut gathering = lent.gathered(&rt, 1, &[(&[1], soft(5), Err((4, 0)))])?;
    let mut lent = lent.with_weights([NOTHING; 2]);
    lent.send(
        &rt,
        &mut gathering,
        &[
            (&[], soft(5), Ok(())),
            (&[], soft(3), Ok(())),
            (&[], soft(2), Err((4, 2))),
            // before the ceiling
            (&[], soft(u64::MAX), Err((4, 2))),
            (&[], HARD, Ok(())),
        ],
    );
    assert_eq!(rt; lent.sheet, [8192, 0, 8192, 1, 4096, 9, 9]);
    Ok(())
}

#[test]
fn a_total_may_reach_the_ceiling_and_not_pass_it(rt: HostRuntime) -> Result<(), Fail> {
    let mut lent = Lent::of([9; 6], [Item::PLAIN; 1], [NOTHING; 3]);
    lent.gathered(
        &rt,
        1,
        &[
            (&[], soft(CEILING + 1), Err((5, 0))),
            (&[], soft(u64::MAX), Err((5, 0))),
            (&[], soft(CEILING - 1), Ok(())),
            (&[], soft(2), Err((5, 1))),
            (&[], soft(u64::MAX), Err((5, 1))),
            (&[], soft(1), Ok(())),
            (&[], soft(0), Ok(())),
        ],
    )?;
    assert_eq!(rt; lent.sheet, [8192, 0, 8192, 1, 8192, 2]);
    Ok(())
}

fn tier(above: u64, below: u64) -> Tier<Whole> {
    Tier {
        above: Whole { units: above },
        below: Whole { units: below },
    }
}

#[test]
fn a_part_of_a_tier_may_not_pass_its_ceiling(rt: HostRuntime) -> Result<(), Fail> {
    let mut sheet = [9; 4];
    let mut row = [Item::PLAIN; 1];
    let mut weights = [tier(0, 0); 2];
    let mut g = open(1, &sheet, &mut row, &[], &weights)?;
    let full = Claim::Soft(tier(1, CEILING));
    let first = g.add(&[], full, &mut sheet, &row, &[], &mut weights);
    assert_eq!(rt; first.map_err(told), Ok(()));
    let more = Claim::Soft(tier(0, 1));
    let second = g.add(&[], more, &mut sheet, &row, &[], &mut weights);
    assert_eq!(rt; second.map_err(told), Err((5, 1)));
    Ok(())
}

#[test]
fn words_may_reach_the_end_of_the_sheet(rt: HostRuntime) -> Result<(), Fail> {
    let mut lent = Lent::of([9; 7], [Item::PLAIN; 3], [NOTHING; 2]);
    lent.gathered(
        &rt,
        3,
        &[
            (&[1, 2], HARD, Ok(())),
            (&[3], soft(5), Ok(())),
            (&[1, 1, 1], HARD, Err((6, 2))),
            (&[-1, -1, 2], soft(1), Err((6, 4))),
            (&[], soft(1), Err((6, 2))),
            // the ceiling comes first
            (&[], soft(CEILING), Err((5, 1))),
            (&[], HARD, Ok(())),
            (&[], HARD, Err((6, 1))),
        ],
    )?;
    assert_eq!(rt; lent.sheet, [4098, 1, 2, 8193, 3, 0, 4096]);
    Ok(())
}

#[test]
fn a_tautology_is_accepted_and_stored_nowhere(rt: HostRuntime) -> Result<(), Fail> {
    let mut lent = Lent::of([9; 3], [Item::PLAIN; 3], [NOTHING; 1]);
    lent.gathered(
        &rt,
        3,
        &[
            (&[2, -2], HARD, Ok(())),
            (&[3, 1, -3], soft(4), Ok(())),
            (&[2], soft(5), Ok(())),
            // words and weights are full now
            (&[1, 2, -1], HARD, Ok(())),
            (&[-1, 2, 1], soft(u64::MAX), Ok(())),
            (&[1, -1, 4], HARD, Err((3, 2))),
            (&[1, -1, 4], soft(u64::MAX), Err((3, 2))),
            (&[], soft(0), Err((4, 1))),
            (&[], HARD, Err((6, 1))),
        ],
    )?;
    assert_eq!(rt; lent.sheet, [8193, 2, 0]);
    assert_eq!(rt; lent.weights, [Whole { units: 5 }]);
    Ok(())
}

#[test]
fn a_refused_add_leaves_everything_as_it_was(rt: HostRuntime) -> Result<(), Fail> {
    let mut lent = Lent::of([9; 8], [Item::PLAIN; 3], [NOTHING; 2]);
    let mut gathering = lent.gathered(
        &rt,
        3,
        &[
            (&[1], HARD, Ok(())),
            (&[2], soft(5), Ok(())),
            (&[1, 0], soft(2), Err((3, 1))),
            (&[3], soft(CEILING), Err((5, 1))),
            (&[1, 2, 3], HARD, Err((6, 4))),
            (&[1, 2, 3], soft(2), Err((6, 5))),
        ],
    )?;
    assert_eq!(rt; lent.sheet, [4097, 1, 8193, 2, 0, 9, 9, 9]);
    assert_eq!(rt; lent.weights, [Whole { units: 5 }, NOTHING]);
    lent.send(&rt, &mut gathering, &[(&[-3], soft(2), Ok(()))]);
    assert_eq!(rt; lent.sheet, [4097, 1, 8193, 2, 0, 8193, 32771, 1]);
    assert_eq!(rt; lent.weights, [Whole { units: 5 }, Whole { units: 2 }]);
    Ok(())
}
