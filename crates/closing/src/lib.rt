// Closing a gathered sheet: each soft clause gets its label, and every clause works from then on.
#![tactic(auto)]

ghost use Rattle.std.specs.Prelude.{◌≡◌, ◌≤◌, length, take, drop};
ghost use Rattle.closing.specs.Labelling.{Closable, closed_in, row_in};
ghost use Rattle.closing.specs.Surveys.{Surveys};
ghost use Rattle.sheet.specs.Clauses.{Laid, clauses};

mod compact;
mod label;
pub mod survey;

use compact::drop_softs;
use label::label_all;
use sheet::row::Item;
use survey::Survey;

// How far the buffers are in use after a close.
#[derive(Clone, Copy)]
pub struct Closed {
    pub fill: usize,
    pub items: usize,
}

// Closes the clauses of the first `fill` words in place, with the labels in a row of `items`. It writes both, so it takes the buffers and
// how far they are in use.
pub fn close(
    sheet: &mut [u16],
    fill: usize,
    row: &mut [Item],
    items: usize,
    survey: &Survey,
) -> Closed
    requires closable { Closable sheet.old fill row.old items }
    requires surveyed { Surveys (clauses (take fill sheet.old)) survey.now }
    ensures shrinks { result.fill ≤ fill }
    ensures laid { Laid (take result.fill sheet.new) }
    ensures closed { clauses (take result.fill sheet.new) ≡ closed_in sheet.old fill row.old items }
    ensures behind { drop fill sheet.new ≡ drop fill sheet.old }
    ensures held { result.items ≤ length row.new }
    ensures row { take result.items row.new ≡ row_in sheet.old fill row.old items }
    ensures rest { drop result.items row.new ≡ drop result.items row.old }
{
    let items = label_all(sheet, fill, row, items, survey);
    let fill = drop_softs(sheet, fill);
    Closed { fill, items }
}
