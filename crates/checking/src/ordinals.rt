// Whether ordinals are those of softs, and no ordinal is there twice.
ghost use Rattle.std.specs.Prelude.{◌≡◌, ℕ, ◌<◌, true, List, [], ◌++◌, Decides};
ghost use Rattle.std.specs.List.{AllByRecursion};
ghost use Rattle.sheet.specs.Clauses.{soft_ordinals};
ghost use Rattle.sheet.specs.Rows.{is_label, label_ordinals};
ghost use Rattle.sheet.specs.Together.{Distinct, OrdinalOf};
ghost use Rattle.checking.specs.Noted.{Noted};

use crate::seen::Seen;
use sheet::clause::Tag;
use sheet::clauses::Clauses;
use sheet::row::{Item, Standing};

// Whether an item's ordinal is as its standing asks.
fn ordinal_fits(softs: usize, item: Item) -> bool
    ensures { Decides result (OrdinalOf softs item.standing item.ordinal) }
{
    match item.standing {
        Standing::Plain | Standing::Fixed => item.ordinal == 0,
        Standing::Label | Standing::Covered | Standing::Forced => usize::from(item.ordinal) < softs,
    }
}

pub(crate) fn ordinals_fit(softs: usize, row: &[Item]) -> bool
    ensures { Decides result (AllByRecursion (λ x. OrdinalOf softs x.standing x.ordinal) row.now) }
{
    row.iter().all(|item| ordinal_fits(softs, *item))
}

// Whether the ordinals of the sheet's softs differ from each other. Where they do, the table notes them all.
pub(crate) fn softs_apart(clauses: &Clauses<'_>, seen: &mut Seen) -> bool
    requires { Noted seen.old [] }
    ensures apart { Decides result (Distinct (soft_ordinals clauses.now)) }
    ensures noted { result ≡ true → Noted seen.new (soft_ordinals clauses.now) }
{
    for clause in clauses.iter() {
        match clause.tag {
            Tag::Soft(n) => {
                if seen.note(n) {
                    return false;
                }
            }
            Tag::Hard | Tag::Working => {}
        }
    }
    true
}

fn is_label(standing: Standing) -> bool
    ensures { result ≡ is_label standing }
{
    match standing {
        Standing::Label | Standing::Covered | Standing::Forced => true,
        Standing::Plain | Standing::Fixed => false,
    }
}

// Whether the labels' ordinals differ from those noted and from each other.
pub(crate) fn labels_apart(row: &[Item], seen: &mut Seen) -> bool
    ensures { (ns : List ℕ) → Noted seen.old ns → Distinct ns → Decides result (Distinct (ns ++ label_ordinals row.now)) }
{
    for item in row {
        if is_label(item.standing) && seen.note(item.ordinal) {
            return false;
        }
    }
    true
}
