// A working sheet: the state from the close on.
ghost use Rattle.std.specs.Prelude.{◌≡◌};

use sheet::buffers::{Counts, Marks};

pub mod deliver;
pub mod run;

// Plain numbers. The buffers are the caller's, and lent to each call one by one: a call may write only to those that it takes as `&mut`.
#[derive(Drop)]
pub struct Working {
    marks: Marks,
    counts: Counts,
}

impl Working {
    pub(crate) fn of(marks: Marks, counts: Counts) -> Working
        ensures marks { result.marks ≡ marks }
        ensures counts { result.counts ≡ counts }
    {
        Working { marks, counts }
    }

    // How many words of the sheet are in use.
    pub fn words(&self) -> usize
        ensures { result ≡ self.now.marks.sheet }
    {
        self.marks.sheet
    }

    // How many items there are, with the labels.
    pub fn items(&self) -> usize
        ensures { result ≡ self.now.counts.items }
    {
        self.counts.items
    }
}
