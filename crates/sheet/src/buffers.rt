// The lent buffers, and how far they are in use.
ghost use Rattle.std.specs.Prelude.{◌≡◌, ◌≤◌, length, take};
ghost use Rattle.std.specs.List.{AllByRecursion};
ghost use Rattle.sheet.specs.Clauses.{Laid, Valid};
ghost use Rattle.sheet.specs.Lending.{lent_in, lent_on};
ghost use Rattle.sheet.specs.Sheets.{used_clauses, used_row};

use crate::clauses::Clauses;
use crate::row::Item;

// The most words that sheet or stack may have in use.
pub const WORDS: usize = 32768;

#[derive(Clone, Copy)]
pub enum Phase {
    Gathering,
    Working,
}

// The two fill marks: how many words of the sheet and of the stack are in use.
#[derive(Clone, Copy)]
pub struct Marks {
    pub sheet: usize,
    pub stack: usize,
}

#[derive(Clone, Copy)]
pub struct Counts {
    // items 1 to `callers` are the caller's own
    pub callers: usize,
    pub items: usize,
    // soft clauses kept, each with a weight
    pub softs: usize,
}

// The buffers as they are lent to be looked at.
#[derive(Clone, Copy)]
pub struct Buffers<'a, W> {
    pub sheet: &'a [u16],
    pub row: &'a [Item],
    pub stack: &'a [u16],
    pub weights: &'a [W],
    pub marks: Marks,
    pub counts: Counts,
}

impl<'a, W> Buffers<'a, W> {
    // The clauses in use.
    pub fn clauses(&self) -> Clauses<'a>
        requires fits { self.now.marks.sheet ≤ length self.now.sheet.now }
        requires laid { Laid (take self.now.marks.sheet self.now.sheet.now) }
        ensures clauses { result ≡ used_clauses (lent_in self.now) }
        ensures valid { AllByRecursion Valid result }
    {
        Clauses::of(&self.sheet[..self.marks.sheet])
    }

    // The items in use: all of a row that does not reach them.
    pub fn items(&self) -> &'a [Item]
        ensures { result.now ≡ used_row (lent_in self.now) }
    {
        self.row.get(..self.counts.items).unwrap_or(self.row)
    }
}

// The buffers as they are lent to be worked on. What weights and counts there are stays as it is.
#[derive(Drop)]
pub struct Desk<'a, W> {
    pub sheet: &'a mut [u16],
    pub row: &'a mut [Item],
    pub stack: &'a mut [u16],
    pub weights: &'a [W],
    pub marks: Marks,
    pub counts: Counts,
}

impl<'a, W> Desk<'a, W> {
    pub fn buffers(&self) -> Buffers<'_, W>
        ensures { lent_in result ≡ lent_on self.now }
    {
        Buffers {
            sheet: self.sheet,
            row: self.row,
            stack: self.stack,
            weights: self.weights,
            marks: self.marks,
            counts: self.counts,
        }
    }
}
