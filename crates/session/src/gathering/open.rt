// Open: a new sheet, with its items plain and nothing else in it.
ghost use Rattle.sheet.specs.Sheets.{lent};
ghost use Rattle.session.specs.Opening.{Opened, OpenFaithful};

use crate::gathering::Gathering;
use sheet::buffers::{Counts, Marks};
use sheet::refusal::Refusal;
use sheet::row::Item;
use weight::Weight;

const MOST_ITEMS: u64 = 2000;

pub fn open<W: Weight>(
    items: u64,
    sheet: &[u16],
    row: &mut [Item],
    stack: &[u16],
    weights: &[W],
) -> Result<Gathering, Refusal>
    ensures answer { Opened items row.old row.new result }
    ensures faithful { OpenFaithful W.Weight (lent sheet.now row.new stack.now weights.now) result }
{
    if items > MOST_ITEMS {
        return Err(Refusal::TooManyItems(items));
    }
    let items = items as usize;
    if row.len() < items {
        return Err(Refusal::RowTooShort(row.len()));
    }
    row[..items].fill(Item::PLAIN);
    Ok(Gathering {
        marks: Marks { sheet: 0, stack: 0 },
        counts: Counts {
            callers: items,
            items,
            softs: 0,
        },
    })
}
