// What the tests share: a run told as plain values, and the words that are in use then.
use meaning::report::Ending;
use rules::rule::Rule;
use sheet::buffers::{Counts, Desk, Marks};
use sheet::row::{Item, Standing};
use std::process::Abort;
use weight::Whole;

// Steps and ending, or the number and value of the refusal.
pub type Outcome = Result<(u64, Ending), (u8, u64)>;

// A sheet all of whose items are the caller's.
pub fn counts(items: usize, softs: usize) -> Counts {
    Counts {
        callers: items,
        items,
        softs,
    }
}

pub fn ran<R: Rule<Whole>>(rule: &R, desk: &mut Desk<'_, Whole>, limit: u64) -> Outcome {
    let report = rule
        .run(desk, limit)
        .map_err(|refusal| (refusal.number(), refusal.value()))?;
    Ok((report.steps, report.ending))
}

// The words in use, if the buffer has so many.
pub fn words<'a>(desk: &'a Desk<'_, Whole>) -> Option<&'a [u16]> {
    desk.sheet.get(..desk.marks.sheet)
}

// A plain item, short enough for rows written by hand.
pub const P: Item = Item::PLAIN;

pub const FIXED: Item = Item {
    standing: Standing::Fixed,
    ordinal: 0,
};

pub fn of(standing: Standing, ordinal: u16) -> Item {
    Item { standing, ordinal }
}

pub fn whole(units: u64) -> Whole {
    Whole { units }
}

// What a run is lent: a sheet whose first `used` words are clauses, and nothing recorded.
#[derive(Clone, Copy)]
pub struct Lent<const S: usize, const R: usize, const T: usize, const W: usize> {
    pub sheet: [u16; S],
    pub used: usize,
    pub row: [Item; R],
    pub stack: [u16; T],
    pub weights: [Whole; W],
}

// Two plain items and a label.
pub const WITH_A_LABEL: [Item; 3] = [
    P,
    P,
    Item {
        standing: Standing::Label,
        ordinal: 0,
    },
];

// These clauses over them, with this stack.
pub fn with_a_label<const S: usize, const T: usize>(
    sheet: [u16; S],
    stack: [u16; T],
) -> Lent<S, 3, T, 1> {
    Lent {
        sheet,
        used: S,
        row: WITH_A_LABEL,
        stack,
        weights: [whole(7)],
    }
}

// What it leaves: the words in use, what is recorded, and the row.
#[derive(Clone, Copy)]
pub struct Rest<'a> {
    pub words: &'a [u16],
    pub recorded: &'a [u16],
    pub row: &'a [Item],
}

pub fn left<'a>(words: &'a [u16], recorded: &'a [u16], row: &'a [Item]) -> Rest<'a> {
    Rest {
        words,
        recorded,
        row,
    }
}

fn is_left(rt: &impl Abort, desk: &Desk<'_, Whole>, left: Rest<'_>) {
    assert_eq!(rt; words(desk), Some(left.words));
    assert_eq!(rt; desk.stack.get(..desk.marks.stack), Some(left.recorded));
    assert_eq!(rt; &*desk.row, left.row);
}

impl<const S: usize, const R: usize, const T: usize, const W: usize> Lent<S, R, T, W> {
    // Runs the rule on a copy, and where it is done once more, which has to find nothing.
    pub fn leaves<Q: Rule<Whole>>(
        &self,
        rt: &impl Abort,
        rule: &Q,
        limit: u64,
        outcome: Outcome,
        left: Rest<'_>,
    ) {
        let mut lent = *self;
        let mut desk = Desk {
            sheet: &mut lent.sheet,
            row: &mut lent.row,
            stack: &mut lent.stack,
            weights: &lent.weights,
            marks: Marks {
                sheet: self.used,
                stack: 0,
            },
            counts: counts(R, W),
        };
        assert_eq!(rt; ran(rule, &mut desk, limit), outcome);
        is_left(rt, &desk, left);
        if let Ok((_, Ending::Done)) = outcome {
            assert_eq!(rt; ran(rule, &mut desk, limit), Ok((0, Ending::Done)));
            is_left(rt, &desk, left);
        }
    }
}
