// A gathering sheet: the state between open and close. It takes clauses.
ghost use Rattle.std.specs.Prelude.{◌≡◌, ◌≤◌};

use sheet::buffers::{Counts, Marks};

pub mod add;
pub mod close;
pub mod open;

// Plain numbers. The buffers are the caller's, and lent to each call one by one: a call may write only to those that it takes as `&mut`.
#[derive(Drop)]
pub struct Gathering {
    marks: Marks,
    counts: Counts,
    ghost few: { counts.callers ≤ 2000 },
    ghost own: { counts.items ≡ counts.callers },
    ghost kept: { counts.softs ≤ 2000 },
    ghost empty: { marks.stack ≡ 0 },
}

impl Gathering {
    // How many words of the sheet are in use.
    pub fn words(&self) -> usize
        ensures { result ≡ self.now.marks.sheet }
    {
        self.marks.sheet
    }
}
