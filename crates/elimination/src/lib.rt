// Bounded variable elimination. A plain item leaves the sheet when its clauses are replaced by their resolvents: every way to resolve a
// clause that has the item with one that denies it. Whatever meets the resolvents meets all clauses with one value of the item or the
// other, and the clauses recorded with the item as witness tell which. Only items go whose resolvents are no more than their clauses.
#![tactic(auto)]

ghost use Rattle.std.specs.Prelude.{◌≡◌, ◌≤◌, [], length, Some};
ghost use Rattle.elimination.specs.Eliminating.{lowest_to_go};
ghost use Rattle.sheet.specs.declared.row.Standing.TheVariants.{Fixed};
ghost use Rattle.steps.specs.Elimination.{EliminationRuns, elimination, elimination_fits, first_to_go};
ghost use Rattle.steps.specs.Rewriting.{retired};
ghost use Rattle.steps.proofs.Eliminated.{elimination_keeps};

use crate::find::first_to_go;
use crate::step::eliminate;
use marking::Marked;
use meaning::report::Report;
use rewriting::retire;
use rules::rule::Rule;
use rules::technique::{Technique, repeat};
use sheet::buffers::Desk;
use sheet::refusal::Refusal;
use sheet::row::{Item, Standing};
use weight::Weight;

mod append;
mod compact;
mod count;
mod find;
mod pair;
mod records;
mod step;
mod undo;

// The item is fixed: it stands in no clause any more.
fn fix(row: &mut [Item], x: u16)
    requires low { 1 ≤ x }
    requires high { x ≤ length row.old }
    ensures { row.new ≡ retired row.old x Fixed }
{
    retire(row, usize::from(x), Standing::Fixed);
}

// One step after another, with one table, in which nothing is marked between the steps.
#[derive(Drop)]
struct Search {
    marked: Marked,
}

impl<W: Weight> Technique<W> for Search {
    type Place = u16;

    ghost step = { λ V k. elimination };

    ghost fits = { λ V k room t. elimination_fits room t (first_to_go t) };

    ghost ready = { λ s b. s.marked ≡ [] };

    ghost found = { λ s b x. (s.marked ≡ []) × (lowest_to_go b ≡ Some x) };

    ghost keeps = { elimination_keeps W.Weight.lawful };

    fn find(&mut self, desk: &Desk<'_, W>) -> Option<u16> {
        first_to_go(desk.buffers(), &mut self.marked)
    }

    fn make(&mut self, desk: &mut Desk<'_, W>, x: u16) -> bool {
        if !eliminate(desk.sheet, desk.stack, &mut desk.marks, x, &mut self.marked) {
            return false;
        }
        fix(desk.row, x);
        true
    }
}

#[derive(Clone, Copy)]
pub struct Elimination {}

impl<W: Weight> Rule<W> for Elimination {
    ghost runs = { λ r V k room. EliminationRuns room };

    fn run(&self, desk: &mut Desk<'_, W>, limit: u64) -> Result<Report, Refusal> {
        let mut search = Search {
            marked: Marked::none(),
        };
        repeat(&mut search, desk, limit)
    }
}
