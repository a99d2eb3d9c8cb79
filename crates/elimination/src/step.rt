// One elimination. The resolvents and the records are written behind what is there, under a guard over the fill marks; only when all of
// them fit is the step kept, and the clauses of the item go.
ghost use Rattle.std.specs.Prelude.{◌≡◌, min, [], length, take};
ghost use Rattle.elimination.specs.Eliminating.{Eliminable, Eliminated};
ghost use Rattle.sheet.specs.Clauses.{Laid, clauses};
ghost use Rattle.sheet.specs.Records.{Stacked};
ghost use Rattle.sheet.specs.Sheets.{Fits};

use crate::append::append_all;
use crate::compact::drop_item;
use crate::records::push_all;
use crate::undo::guard;
use marking::Marked;
use sheet::buffers::{Marks, WORDS};
use sheet::clauses::Clauses;

fn word_limit(buffer: &[u16]) -> usize
    ensures { result ≡ min (length buffer.now) 32768 }
{
    buffer.len().min(WORDS)
}

// Replaces the clauses of `x` by their resolvents, and records them. Answers whether all fits. It is lent what it changes and not the desk:
// the contract then need not say what of a desk stays.
pub(crate) fn eliminate(
    sheet: &mut [u16],
    stack: &mut [u16],
    marks: &mut Marks,
    x: u16,
    marked: &mut Marked,
) -> bool
    requires sheet { Fits marks.old.sheet sheet.old }
    requires laid { Laid (take marks.old.sheet sheet.old) }
    requires stack { Fits marks.old.stack stack.old }
    requires stacked { Stacked (take marks.old.stack stack.old) }
    requires item { Eliminable x (clauses (take marks.old.sheet sheet.old)) }
    requires clear { marked.old ≡ [] }
    ensures clear { marked.new ≡ [] }
    ensures step { Eliminated x (record { sheet = sheet.old; stack = stack.old; marks = marks.old }) (record { sheet = sheet.new; stack = stack.new; marks = marks.new }) result }
{
    let undo = guard(marks);
    let fill = undo.marks.sheet;
    let limit = word_limit(sheet);
    let (front, back) = sheet.split_at_mut(fill);
    let clauses = Clauses::of(front);
    let Some(more) = append_all(&clauses, x, marked, &mut back[..limit - fill]) else {
        return false;
    };
    undo.marks.sheet = fill + more;
    let mark = undo.marks.stack;
    let limit = word_limit(stack);
    let Some(more) = push_all(&clauses, x, &mut stack[mark..limit]) else {
        return false;
    };
    undo.marks.stack = mark + more;
    undo.marks.sheet = drop_item(sheet, undo.marks.sheet, x);
    undo.keep();
    true
}
