use crate::calls::{FIXED, HARD, Lent, NOTHING, Sent, label, soft};
use sheet::row::Item;
use std::process::Abort;
use std::test::Fail;

// Gathers clauses of two items in a row of four, closes them, and compares the words and the row.
fn closes(
    rt: &impl Abort,
    adds: &[Sent<'_>],
    words: &[u16],
    labelled: [Item; 4],
) -> Result<(), Fail> {
    let mut lent = Lent::of([9; 16], [Item::PLAIN; 4], [NOTHING; 3]);
    lent.worked(rt, 2, adds)?;
    assert!(rt; lent.sheet.starts_with(words));
    assert_eq!(rt; lent.row, labelled);
    Ok(())
}

#[test]
fn a_small_instance(rt: HostRuntime) -> Result<(), Fail> {
    let mut lent = Lent::of([9; 15], [FIXED; 5], [NOTHING; 3]);
    lent.small(&rt)?;
    let words = [12290, 1, 2, 12290, 2, 32771, 12290, 3, 4];
    assert!(rt; lent.sheet.starts_with(&words));
    // the record behind the items stays
    let labelled = [label(0), label(1), Item::PLAIN, label(2), FIXED];
    assert_eq!(rt; lent.row, labelled);
    Ok(())
}

#[test]
fn a_denial_lends_its_item(rt: HostRuntime) -> Result<(), Fail> {
    // a plain literal of a hard clause is no matter, and a tautology is not on the sheet
    closes(
        &rt,
        &[
            (&[1, 2], HARD, Ok(())),
            (&[-1, -1], soft(5), Ok(())),
            (&[1, -1], soft(9), Ok(())),
        ],
        &[12290, 1, 2],
        [label(0), Item::PLAIN, Item::PLAIN, Item::PLAIN],
    )
}

#[test]
fn a_denial_that_another_soft_names_gets_a_fresh_label(rt: HostRuntime) -> Result<(), Fail> {
    let labelled = [Item::PLAIN, Item::PLAIN, label(0), label(1)];
    closes(
        &rt,
        &[(&[-1], soft(5), Ok(())), (&[-1], soft(5), Ok(()))],
        &[12290, 3, 32769, 12290, 4, 32769],
        labelled,
    )?;
    closes(
        &rt,
        &[(&[-2, -1], soft(5), Ok(())), (&[-1], soft(3), Ok(()))],
        &[12291, 3, 32769, 32770, 12290, 4, 32769],
        labelled,
    )?;
    closes(
        &rt,
        &[(&[-1], soft(5), Ok(())), (&[1, 2], soft(3), Ok(()))],
        &[12290, 3, 32769, 12291, 1, 2, 4],
        labelled,
    )
}

#[test]
fn a_denial_in_a_hard_clause_gets_a_fresh_label(rt: HostRuntime) -> Result<(), Fail> {
    let labelled = [Item::PLAIN, Item::PLAIN, label(0), Item::PLAIN];
    closes(
        &rt,
        &[(&[2, -1], HARD, Ok(())), (&[-1], soft(5), Ok(()))],
        &[12290, 2, 32769, 12290, 3, 32769],
        labelled,
    )?;
    closes(
        &rt,
        &[(&[-1], soft(5), Ok(())), (&[-1], HARD, Ok(()))],
        &[12290, 3, 32769, 12289, 32769],
        labelled,
    )
}

#[test]
fn fresh_labels_go_by_the_order_of_the_sheet(rt: HostRuntime) -> Result<(), Fail> {
    // a weight of zero and an empty soft get labels too, and an item that is lent takes no number
    closes(
        &rt,
        &[
            (&[1], soft(0), Ok(())),
            (&[], HARD, Ok(())),
            (&[-2], soft(0), Ok(())),
            (&[], soft(3), Ok(())),
        ],
        &[12290, 1, 3, 12288, 12289, 4],
        [Item::PLAIN, label(1), label(0), label(2)],
    )
}

#[test]
fn a_row_one_short_for_the_labels_is_refused_and_a_longer_one_closes(
    rt: HostRuntime,
) -> Result<(), Fail> {
    let mut lent = Lent::of([9; 7], [Item::PLAIN; 3], [NOTHING; 2]);
    let adds: [Sent<'_>; 2] = [(&[1], soft(5), Ok(())), (&[2], soft(3), Ok(()))];
    let gathering = lent.gathered(&rt, 2, &adds)?;
    let mut gathering = lent.close_refused(&rt, gathering, (7, 4))?;
    assert_eq!(rt; lent.sheet, [8193, 1, 0, 8193, 2, 1, 9]);
    assert_eq!(rt; lent.row, [Item::PLAIN; 3]);
    // it still gathers
    let mut longer = lent.with_row([Item::PLAIN; 4]);
    longer.send(&rt, &mut gathering, &[(&[], HARD, Ok(()))]);
    longer.closed(gathering)?;
    assert_eq!(rt; longer.sheet, [12290, 1, 3, 12290, 2, 4, 12288]);
    assert_eq!(rt; longer.row, [Item::PLAIN, Item::PLAIN, label(0), label(1)]);
    Ok(())
}
