// Buffers that something else wrote to between the calls.
use crate::calls::{CEILING, FIXED, HARD, Lent, NOTHING, label, soft};
use session::gathering::Gathering;
use sheet::row::{Item, Standing};
use std::process::Abort;
use std::test::Fail;
use weight::Whole;

// what stands on the sheet then
const WORDS: [u16; 9] = [4098, 1, 2, 8193, 32771, 0, 8193, 2, 1];

// a plain item has no ordinal
const STRANGE: Item = Item {
    standing: Standing::Plain,
    ordinal: 1,
};

impl<const S: usize, const R: usize, const W: usize> Lent<S, R, 0, W> {
    fn three_clauses(&mut self, rt: &impl Abort, items: u64) -> Result<Gathering, Fail> {
        self.gathered(
            rt,
            items,
            &[
                (&[1, 2], HARD, Ok(())),
                (&[-3], soft(5), Ok(())),
                (&[2], soft(3), Ok(())),
            ],
        )
    }

    // Each call is refused with the part that fails, before any other cause, and changes nothing.
    fn fails(
        &mut self,
        rt: &impl Abort,
        mut gathering: Gathering,
        part: u64,
    ) -> Result<Gathering, Fail> {
        let before = *self;
        self.send(
            rt,
            &mut gathering,
            &[
                (&[1], HARD, Err((8, part))),
                (&[0], soft(u64::MAX), Err((8, part))),
                (&[1, -1], HARD, Err((8, part))),
            ],
        );
        assert_eq!(rt; *self, before);
        self.close_refused(rt, gathering, (8, part))
    }
}

#[test]
fn a_damaged_sheet(rt: HostRuntime) -> Result<(), Fail> {
    let mut lent = Lent::of([9; 9], [Item::PLAIN; 3], [NOTHING; 2]);
    let mut g = lent.three_clauses(&rt, 3)?;
    assert_eq!(rt; lent.sheet, WORDS);
    let damages: [(usize, u16); 10] = [
        // a working clause, no kind, a literal too many, and as many as reach behind the words
        (0, 12290),
        (0, 2),
        (0, 4099),
        (6, 8194),
        // no item, one beyond them, one twice, one with both signs
        (1, 0),
        (2, 4),
        (1, 2),
        (2, 32769),
        // an ordinal twice, and one beyond the softs
        (5, 1),
        (8, 2),
    ];
    for (place, word) in damages {
        assert!(rt; place < WORDS.len());
        let mut damaged = lent;
        damaged.sheet[place] = word;
        g = damaged.fails(&rt, g, 1)?;
    }
    // a clause with an item that is retired
    let mut retired = lent.with_row([Item::PLAIN, FIXED, Item::PLAIN]);
    let g = retired.fails(&rt, g, 1)?;
    assert_eq!(rt; lent.sheet, WORDS);
    lent.with_row([Item::PLAIN; 4]).closed(g)?;
    Ok(())
}

#[test]
fn a_damaged_row_and_damaged_weights(rt: HostRuntime) -> Result<(), Fail> {
    let mut lent = Lent::of([9; 10], [Item::PLAIN; 4], [NOTHING; 2]);
    let mut g = lent.three_clauses(&rt, 3)?;
    let first = Whole { units: 5 };
    let whole = [first, Whole { units: 3 }];
    let beyond = [first, Whole { units: CEILING }];
    let cases: [(u64, [u16; 9], [Item; 3], [Whole; 2]); 7] = [
        (2, WORDS, [STRANGE, Item::PLAIN, Item::PLAIN], whole),
        // the ordinal of a soft on the sheet, and of none
        (2, WORDS, [label(0), Item::PLAIN, Item::PLAIN], whole),
        (2, WORDS, [Item::PLAIN, Item::PLAIN, label(2)], whole),
        (4, WORDS, [Item::PLAIN; 3], beyond),
        // of several faults the first is told
        (1, [12290; 9], [STRANGE; 3], beyond),
        (1, [12290; 9], [Item::PLAIN; 3], beyond),
        (2, WORDS, [STRANGE; 3], beyond),
    ];
    for (part, sheet, row, weights) in cases {
        g = Lent::of(sheet, row, weights).fails(&rt, g, part)?;
    }
    // where all is well again, nothing was lost
    lent.send(&rt, &mut g, &[(&[], HARD, Ok(()))]);
    assert_eq!(rt; lent.sheet, [4098, 1, 2, 8193, 32771, 0, 8193, 2, 1, 4096]);
    lent.closed(g)?;
    Ok(())
}

#[test]
fn buffers_that_are_too_short_now(rt: HostRuntime) -> Result<(), Fail> {
    let mut lent = Lent::of([9; 9], [Item::PLAIN; 4], [NOTHING; 2]);
    let g = lent.three_clauses(&rt, 3)?;
    let g = lent.with_sheet([4098, 1, 2]).fails(&rt, g, 1)?;
    // though a clause names the item that is not there
    let g = lent.with_row([Item::PLAIN; 2]).fails(&rt, g, 2)?;
    let g = lent.with_weights([NOTHING]).fails(&rt, g, 4)?;
    lent.closed(g)?;
    Ok(())
}

#[test]
fn strange_buffers_may_hold_together(rt: HostRuntime) -> Result<(), Fail> {
    let mut lent = Lent::of([9; 11], [Item::PLAIN; 5], [NOTHING; 2]);
    let mut g = lent.three_clauses(&rt, 4)?;
    // ordinals in another order, and an item retired that no clause names
    lent.sheet[5] = 1;
    lent.sheet[8] = 0;
    lent.row[3] = FIXED;
    lent.send(&rt, &mut g, &[(&[4], HARD, Ok(()))]);
    // a clause names it now
    let g = lent.fails(&rt, g, 1)?;
    lent.row[3] = Item::PLAIN;
    lent.closed(g)?;
    assert!(rt;
        lent.sheet
            .starts_with(&[12290, 1, 2, 12290, 2, 5, 12289, 4])
    );
    let labelled = [Item::PLAIN, Item::PLAIN, label(1), Item::PLAIN, label(0)];
    assert_eq!(rt; lent.row, labelled);
    Ok(())
}
