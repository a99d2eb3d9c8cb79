// Damaged buffers, and the part that each damage is in. The answers come from the definitions.
use crate::holds_together;
use sheet::buffers::{Buffers, Counts, Marks, Phase};
use sheet::refusal::Part;
use sheet::row::{Item, Standing};
use weight::Whole;

// A clause begins with one of these and its count of literals.
const HARD: u16 = 4096;

const SOFT: u16 = 8192;

const WORKING: u16 = 12288;

// added to an item's number
const NOT: u16 = 32768;

// a record of item 1 alone
const RECORD: [u16; 3] = [1, 1, 4097];

// a plain item has no ordinal
const STRANGE: Item = Item {
    standing: Standing::Plain,
    ordinal: 1,
};

const LABEL: Item = Item {
    standing: Standing::Label,
    ordinal: 0,
};

const COVERED: Item = Item {
    standing: Standing::Covered,
    ordinal: 0,
};

const ROW: [Item; 2] = [Item::PLAIN, LABEL];

fn counts(items: usize, softs: usize) -> Counts {
    Counts {
        callers: 0,
        items,
        softs,
    }
}

// Buffers that are in use to their ends, with two weights.
fn answer(
    phase: Phase,
    sheet: &[u16],
    row: &[Item],
    stack: &[u16],
    items: usize,
    softs: usize,
) -> Result<(), Part> {
    let buffers = Buffers {
        sheet,
        row,
        stack,
        weights: &[Whole { units: 1 }; 2],
        marks: Marks {
            sheet: sheet.len(),
            stack: stack.len(),
        },
        counts: counts(items, softs),
    };
    holds_together(phase, buffers)
}

// Buffers with no words and no items, whatever is said to be in use.
fn bare(weights: &[Whole], marks: Marks, softs: usize) -> Result<(), Part> {
    let buffers = Buffers {
        sheet: &[],
        row: &[],
        stack: &[],
        weights,
        marks,
        counts: counts(0, softs),
    };
    holds_together(Phase::Working, buffers)
}

fn gathered(sheet: &[u16], row: &[Item], items: usize) -> Result<(), Part> {
    answer(Phase::Gathering, sheet, row, &[], items, 1)
}

fn worked(sheet: &[u16], row: &[Item; 2], stack: &[u16], softs: usize) -> Result<(), Part> {
    answer(Phase::Working, sheet, row, stack, 2, softs)
}

#[test]
fn whole_buffers_hold_together(rt: HostRuntime) {
    assert_eq!(rt;
        gathered(
            &[HARD + 2, 1, NOT + 2, SOFT + 1, 2, 0],
            &[Item::PLAIN; 2],
            2
        ),
        Ok(())
    );
    // a gathered clause may deny a label
    assert_eq!(rt; gathered(&[HARD + 1, NOT + 2], &ROW, 2), Ok(()));
    assert_eq!(rt;
        worked(&[WORKING + 2, 2, NOT + 1], &ROW, &RECORD, 2),
        Ok(())
    );
}

#[test]
fn a_damaged_sheet_of_gathered_clauses(rt: HostRuntime) {
    let broken = Err(Part::Sheet);
    assert_eq!(rt; gathered(&[WORKING + 1, 1], &[Item::PLAIN], 1), broken);
    assert_eq!(rt; gathered(&[HARD + 2, 2, 1], &[Item::PLAIN; 2], 2), broken);
    assert_eq!(rt; gathered(&[HARD + 1, 3], &[Item::PLAIN; 2], 2), broken);
    assert_eq!(rt;
        gathered(&[HARD + 1, 2], &[Item::PLAIN, COVERED], 2),
        broken
    );
    assert_eq!(rt; gathered(&[SOFT + 1, 1, 1], &[Item::PLAIN], 1), broken);
    // two softs with one ordinal
    assert_eq!(rt;
        gathered(&[SOFT + 1, 1, 0, SOFT, 0], &[Item::PLAIN], 1),
        broken
    );
}

#[test]
fn a_damaged_sheet_of_working_clauses(rt: HostRuntime) {
    let broken = Err(Part::Sheet);
    assert_eq!(rt; worked(&[HARD + 1, 1], &ROW, &[], 1), broken);
    assert_eq!(rt; worked(&[WORKING + 1, NOT + 2], &ROW, &[], 1), broken);
    assert_eq!(rt;
        worked(&[WORKING + 1, 2], &[Item::PLAIN, COVERED], &[], 1),
        broken
    );
}

#[test]
fn a_damaged_row(rt: HostRuntime) {
    let broken = Err(Part::Row);
    // the clause names an item behind the row's end
    assert_eq!(rt; gathered(&[HARD + 1, 2], &[Item::PLAIN], 2), broken);
    // a soft and a label with one ordinal
    assert_eq!(rt; gathered(&[SOFT + 1, 1, 0], &ROW, 2), broken);
    assert_eq!(rt;
        worked(&[WORKING + 1, 1], &[STRANGE, LABEL], &[], 2),
        broken
    );
    assert_eq!(rt; worked(&[], &ROW, &[], 0), broken);
    assert_eq!(rt; worked(&[], &[COVERED, LABEL], &[], 1), broken);
}

#[test]
fn a_damaged_stack(rt: HostRuntime) {
    let broken = Err(Part::Stack);
    // nothing is recorded before the close
    assert_eq!(rt;
        answer(Phase::Gathering, &[], &[Item::PLAIN], &RECORD, 1, 0),
        broken
    );
    assert_eq!(rt; worked(&[], &ROW, &[1, 1, 1], 1), broken);
    assert_eq!(rt; worked(&[], &ROW, &[1, 2, 4097], 1), broken);
    assert_eq!(rt; worked(&[], &ROW, &[3, 3, 4097], 1), broken);
}

#[test]
fn damaged_weights(rt: HostRuntime) {
    let broken = Err(Part::Weights);
    assert_eq!(rt; answer(Phase::Gathering, &[], &[], &[], 0, 3), broken);
    assert_eq!(rt; worked(&[], &ROW, &RECORD, 3), broken);
    // each alone is at the ceiling
    let weights = [Whole {
        units: 4_611_686_018_427_387_904,
    }; 2];
    assert_eq!(rt; bare(&weights, Marks { sheet: 0, stack: 0 }, 2), broken);
}

#[test]
fn a_mark_behind_the_buffer(rt: HostRuntime) {
    assert_eq!(rt;
        bare(&[], Marks { sheet: 1, stack: 1 }, 0),
        Err(Part::Sheet)
    );
    assert_eq!(rt;
        bare(&[], Marks { sheet: 0, stack: 1 }, 0),
        Err(Part::Stack)
    );
}

#[test]
fn of_two_faults_the_first_is_told(rt: HostRuntime) {
    assert_eq!(rt;
        gathered(&[WORKING + 1, 1], &[STRANGE], 1),
        Err(Part::Sheet)
    );
    assert_eq!(rt; worked(&[HARD], &ROW, &RECORD, 3), Err(Part::Sheet));
    assert_eq!(rt;
        worked(&[], &[STRANGE, LABEL], &[1, 1, 1], 2),
        Err(Part::Row)
    );
    assert_eq!(rt; worked(&[], &ROW, &[1, 1, 1], 3), Err(Part::Stack));
}
