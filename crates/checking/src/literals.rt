// Whether literals name the items that they may.
ghost use Rattle.std.specs.Prelude.{◌≡◌, Decides};
ghost use Rattle.std.specs.List.{AllByRecursion};
ghost use Rattle.sheet.specs.Literals.{Literal};
ghost use Rattle.sheet.specs.Together.{Stands};
ghost use Rattle.checking.specs.Standing.{allowed};

use sheet::buffers::Phase;
use sheet::literal::{is_denied, item};
use sheet::row::{Item, Standing};

// Whether a word names one of the items.
fn is_literal(items: usize, w: u16) -> bool
    ensures { Decides result (Literal items w) }
{
    (1..=items).contains(&item(w))
}

pub(crate) fn all_literals(items: usize, lits: &[u16]) -> bool
    ensures { Decides result (AllByRecursion (Literal items) lits.now) }
{
    lits.iter().all(|w| is_literal(items, *w))
}

// Whether a clause may hold the literal `w` of an item with this standing.
fn allows(phase: Phase, standing: Standing, w: u16) -> bool
    ensures { result ≡ allowed phase standing w }
{
    match standing {
        Standing::Plain => true,
        Standing::Label => match phase {
            Phase::Gathering => true,
            Phase::Working => !is_denied(w),
        },
        Standing::Fixed | Standing::Covered | Standing::Forced => false,
    }
}

// Whether a literal of a clause stands. That the row ends before its item is not the sheet's fault.
fn stands(phase: Phase, items: usize, row: &[Item], w: u16) -> bool
    ensures { Decides result (Stands phase items row.now w) }
{
    if !is_literal(items, w) {
        return false;
    }
    let item = item(w);
    item > row.len() || allows(phase, row[item - 1].standing, w)
}

pub(crate) fn all_stand(phase: Phase, items: usize, row: &[Item], lits: &[u16]) -> bool
    ensures { Decides result (AllByRecursion (Stands phase items row.now) lits.now) }
{
    lits.iter().all(|w| stands(phase, items, row, *w))
}
