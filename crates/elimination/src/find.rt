// The item that goes next.
ghost use Rattle.std.specs.Prelude.{◌≡◌, ◌<◌, ◌≤◌, [], length, take};
ghost use Rattle.elimination.specs.Eliminating.{lowest_to_go};
ghost use Rattle.sheet.specs.Clauses.{Laid};
ghost use Rattle.sheet.specs.Lending.{lent_in};
ghost use Rattle.sheet.specs.Sheets.{Fits};
ghost use Rattle.steps.specs.Elimination.{may_go};
ghost use Rattle.steps.specs.Rewriting.{plain_at};

use crate::count::is_bounded;
use marking::Marked;
use rewriting::nameable;
use sheet::buffers::Buffers;
use sheet::clauses::Clauses;
use sheet::row::{Item, Standing};

fn is_plain_at(row: &[Item], x: u16) -> bool
    requires low { 0 < x }
    requires high { x ≤ length row.now }
    ensures { result ≡ plain_at row.now x }
{
    row[x as usize - 1].standing == Standing::Plain
}

fn may_go(clauses: &Clauses<'_>, row: &[Item], x: u16, marked: &mut Marked) -> bool
    requires few { length clauses.now ≤ 32768 }
    requires low { 0 < x }
    requires high { x ≤ length row.now }
    requires clear { marked.old ≡ [] }
    ensures clear { marked.new ≡ [] }
    ensures goes { result ≡ may_go row.now clauses.now x }
{
    is_plain_at(row, x) && is_bounded(clauses, x, marked)
}

// The lowest item that may go.
#[tactic(auto, using(crate::proofs::Items::lowest_later, crate::proofs::Laying::few_clauses))]
pub(crate) fn first_to_go<W>(lent: Buffers<'_, W>, marked: &mut Marked) -> Option<u16>
    requires sheet { Fits lent.marks.sheet lent.sheet.now }
    requires laid { Laid (take lent.marks.sheet lent.sheet.now) }
    requires clear { marked.old ≡ [] }
    ensures clear { marked.new ≡ [] }
    ensures lowest { result ≡ lowest_to_go (lent_in lent.entry) }
{
    let clauses = lent.clauses();
    let row = lent.items();
    let last = nameable(row.len());
    // a loop, since each test marks literals and takes the marks away again
    for x in 1..=last {
        if may_go(&clauses, row, x, marked) {
            return Some(x);
        }
    }
    None
}
