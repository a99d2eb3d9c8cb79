// Whether the clauses of the sheet are as the phase, the row and the counts ask.
ghost use Rattle.std.specs.Prelude.{◌≡◌, ◌<◌, Decides};
ghost use Rattle.std.specs.List.{AllByRecursion};
ghost use Rattle.sheet.specs.Clauses.{ordinal_of};
ghost use Rattle.sheet.specs.Views.{clause_seen};
ghost use Rattle.sheet.specs.Together.{of_phase};
ghost use Rattle.checking.specs.Standing.{ClauseStands};

use crate::literals::all_stand;
use sheet::buffers::{Counts, Phase};
use sheet::clause::Tag;
use sheet::clauses::{ClauseRef, Clauses};
use sheet::row::Item;

fn of_phase(phase: Phase, tag: Tag) -> bool
    ensures { result ≡ of_phase phase tag }
{
    match phase {
        Phase::Gathering => !matches!(tag, Tag::Working),
        Phase::Working => matches!(tag, Tag::Working),
    }
}

// Whether a soft's ordinal is below the count of softs.
fn in_range(softs: usize, tag: Tag) -> bool
    ensures { Decides result (AllByRecursion (λ n. n < softs) (ordinal_of tag)) }
{
    match tag {
        Tag::Soft(n) => usize::from(n) < softs,
        Tag::Hard | Tag::Working => true,
    }
}

// Each function takes what it reads of the phase, the counts and the row: all the buffers together would bring the weights down to the literals.
fn clause_stands(phase: Phase, counts: Counts, row: &[Item], clause: ClauseRef<'_>) -> bool
    ensures { Decides result (ClauseStands phase counts.items counts.softs row.now (clause_seen clause.entry)) }
{
    of_phase(phase, clause.tag)
        && in_range(counts.softs, clause.tag)
        && all_stand(phase, counts.items, row, clause.lits)
}

pub(crate) fn clauses_stand(
    phase: Phase,
    counts: Counts,
    row: &[Item],
    clauses: &Clauses<'_>,
) -> bool
    ensures { Decides result (AllByRecursion (ClauseStands phase counts.items counts.softs row.now) clauses.now) }
{
    clauses
        .iter()
        .all(|clause| clause_stands(phase, counts, row, clause))
}
