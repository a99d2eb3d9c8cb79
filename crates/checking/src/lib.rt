// Whether lent buffers hold together: every call that is lent them asks this first.
#![tactic(auto)]

ghost use Rattle.std.specs.Prelude.{◌≡◌, true, [], take, Decides, MatchOption};
ghost use Rattle.sheet.specs.Clauses.{soft_ordinals};
ghost use Rattle.sheet.specs.Lending.{lent_in};
ghost use Rattle.sheet.specs.Sheets.{Fits, used_clauses};
ghost use Rattle.sheet.specs.Together.{Checked, Empty, SheetHolds, StackHolds, WeightsHold};
ghost use Rattle.checking.specs.Noted.{Noted};
ghost use Rattle.checking.specs.Parts.{RowAnswer};

use crate::clauses::clauses_stand;
use crate::ordinals::{labels_apart, ordinals_fit, softs_apart};
use crate::records::records_stand;
use crate::seen::Seen;
use sheet::buffers::{Buffers, Phase, WORDS};
use sheet::clause::is_laid;
use sheet::clauses::Clauses;
use sheet::record::is_stacked;
use sheet::records::Records;
use sheet::refusal::Part;
use weight::{Weight, total};

mod clauses;
mod literals;
mod ordinals;
mod records;
mod seen;
#[cfg(test)]
mod tests;

// The words in use, where they end within the bound and within the buffer.
fn in_use(buffer: &[u16], end: usize) -> Option<&[u16]>
    ensures { MatchOption result (Fits end buffer.now → ⊥) (λ words. Fits end buffer.now × (words.now ≡ take end buffer.now)) }
{
    if end > WORDS {
        return None;
    }
    buffer.get(..end)
}

// Where the sheet holds, the table notes its softs: the row's labels have to differ from those too.
fn sheet_holds<W>(phase: Phase, buffers: Buffers<'_, W>, seen: &mut Seen) -> bool
    requires { Noted seen.old [] }
    ensures holds { Decides result (SheetHolds phase (lent_in buffers.entry)) }
    ensures noted { result ≡ true → Noted seen.new (soft_ordinals (used_clauses (lent_in buffers.entry))) }
{
    let Some(words) = in_use(buffers.sheet, buffers.marks.sheet) else {
        return false;
    };
    if !is_laid(words) {
        return false;
    }
    let clauses = Clauses::of(words);
    clauses_stand(phase, buffers.counts, buffers.row, &clauses) && softs_apart(&clauses, seen)
}

fn row_holds<W>(buffers: Buffers<'_, W>, seen: &mut Seen) -> bool
    ensures { RowAnswer seen.old (lent_in buffers.entry) result }
{
    let Some(row) = buffers.row.get(..buffers.counts.items) else {
        return false;
    };
    ordinals_fit(buffers.counts.softs, row) && labels_apart(row, seen)
}

// Nothing is recorded before the close.
fn may_record(phase: Phase, fill: usize) -> bool
    ensures { Decides result (Empty phase fill) }
{
    match phase {
        Phase::Gathering => fill == 0,
        Phase::Working => true,
    }
}

fn stack_holds<W>(phase: Phase, buffers: Buffers<'_, W>) -> bool
    ensures { Decides result (StackHolds phase (lent_in buffers.entry)) }
{
    let Some(words) = in_use(buffers.stack, buffers.marks.stack) else {
        return false;
    };
    may_record(phase, words.len())
        && is_stacked(words)
        && records_stand(buffers.counts.items, &Records::of(words))
}

fn weights_hold<W: Weight>(buffers: Buffers<'_, W>) -> bool
    ensures { Decides result (WeightsHold W.Weight (lent_in buffers.entry)) }
{
    let Some(weights) = buffers.weights.get(..buffers.counts.softs) else {
        return false;
    };
    total(weights).is_ok()
}

// Fails with the first part that does. Each part is one pass or a few over what it looks at.
pub fn holds_together<W: Weight>(phase: Phase, buffers: Buffers<'_, W>) -> Result<(), Part>
    ensures { Checked W.Weight phase (lent_in buffers.entry) result }
{
    let mut seen = Seen::none();
    if !sheet_holds(phase, buffers, &mut seen) {
        return Err(Part::Sheet);
    }
    if !row_holds(buffers, &mut seen) {
        return Err(Part::Row);
    }
    if !stack_holds(phase, buffers) {
        return Err(Part::Stack);
    }
    if !weights_hold(buffers) {
        return Err(Part::Weights);
    }
    Ok(())
}
