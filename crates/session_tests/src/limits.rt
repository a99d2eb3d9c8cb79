// The largest counts that a session may have.
use crate::calls::{HARD, Lent, NOTHING, Sent, label, soft};
use sheet::row::Item;
use std::test::Fail;

#[test]
fn at_most_two_thousand_softs_are_kept(rt: HostRuntime) -> Result<(), Fail> {
    let mut lent = Lent::of([9; 4000], [Item::PLAIN; 4000], [NOTHING; 2001]);
    let softs: [Sent<'_>; 2000] = [(&[], soft(1), Ok(())); 2000];
    let mut g = lent.gathered(&rt, 2000, &softs)?;
    lent.send(&rt, &mut g, &[(&[], soft(1), Err((4, 2000)))]);
    let g = lent
        .with_row([Item::PLAIN; 3999])
        .close_refused(&rt, g, (7, 4000))?;
    lent.closed(g)?;
    assert_eq!(rt; lent.sheet.last(), Some(&4000));
    assert_eq!(rt; lent.row.last(), Some(&label(1999)));
    Ok(())
}

#[test]
fn words_end_at_32768_in_a_longer_sheet(rt: HostRuntime) -> Result<(), Fail> {
    let mut lent = Lent::of([9; 32769], [Item::PLAIN; 2000], []);
    let mut lits = [0; 2000];
    for (lit, n) in lits.iter_mut().zip(1..=2000) {
        *lit = n;
    }
    let sent: Sent<'_> = (&lits, HARD, Ok(()));
    let mut g = lent.gathered(&rt, 2000, &[sent; 16])?;
    // 16 times 2,001 words are in use
    lent.send(
        &rt,
        &mut g,
        &[
            (&lits[..752], HARD, Err((6, 753))),
            (&lits[..751], HARD, Ok(())),
            (&[], HARD, Err((6, 1))),
        ],
    );
    assert_eq!(rt; lent.sheet.last(), Some(&9));
    Ok(())
}
