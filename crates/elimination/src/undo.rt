// A guard over the two fill marks: while a step is made they may grow, and unless the step is kept they go back to where they stood.
// What was written behind them then means nothing.
ghost use Rattle.std.specs.Prelude.{◌≡◌};

use sheet::buffers::Marks;

pub(crate) struct Undo<'a> {
    pub(crate) marks: &'a mut Marks,
    sheet: usize,
    stack: usize,
}

impl Drop for Undo<'_> {
    fn drop(self)
        ensures sheet { self.exit.0.now.sheet ≡ self.entry.sheet }
        ensures stack { self.exit.0.now.stack ≡ self.entry.stack }
    {
        self.marks.sheet = self.sheet;
        self.marks.stack = self.stack;
        let Undo {
            marks: _,
            sheet: _,
            stack: _,
        } = self;
    }
}

impl Undo<'_> {
    // The step is kept: the marks stay where they are.
    pub(crate) fn keep(self)
        ensures { self.exit.0.now ≡ self.entry.marks.now }
    {
        let Undo {
            marks: _,
            sheet: _,
            stack: _,
        } = self;
    }
}

pub(crate) fn guard<'a>(marks: &'a mut Marks) -> Undo<'a>
    ensures marks { result.marks.now ≡ marks.old }
    ensures sheet { result.sheet ≡ marks.old.sheet }
    ensures stack { result.stack ≡ marks.old.stack }
    ensures loan { result.marks.ghost_name ≡ marks.entry.ghost_name }
{
    Undo {
        sheet: marks.sheet,
        stack: marks.stack,
        marks,
    }
}
