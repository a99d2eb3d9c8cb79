// A delivered sheet: the state while a solver has it. It is not `Drop`: a delivered sheet has to be settled, or the program does not compile.
ghost use Rattle.std.specs.Prelude.{◌≡◌};

use sheet::buffers::{Counts, Marks};

pub mod settle;
pub mod unwind;

// Plain numbers. The buffers are the caller's, and lent to each call one by one: a call may write only to those that it takes as `&mut`.
// A type beside `Working`, which has the same numbers: the compiler tells the states apart.
pub struct Delivered {
    marks: Marks,
    counts: Counts,
}

impl Delivered {
    pub(crate) fn of(marks: Marks, counts: Counts) -> Delivered
        ensures marks { result.marks ≡ marks }
        ensures counts { result.counts ≡ counts }
    {
        Delivered { marks, counts }
    }
}
