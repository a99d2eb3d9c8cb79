// Self-subsuming resolution. Where a clause has the denial of a plain literal of another clause, and otherwise only literals of that one, their
// resolvent is the other clause without the literal, so the literal leaves it. The resolvent is met wherever both clauses are, and it
// meets the longer clause: answers stay what they were, and nothing is recorded.
#![tactic(auto)]

ghost use Rattle.std.specs.Prelude.{◌≡◌, ◌+◌, ◌<◌, ◌≤◌, ◌||◌, ◌∷◌, ◌++◌, length, take, true, ◌==◌, slice_index, ⊤};
ghost use Rattle.places.specs.Spots.{SpotAt};
ghost use Rattle.sheet.specs.ClauseSteps.{Step, placed};
ghost use Rattle.sheet.specs.Clauses.{Laid, clauses};
ghost use Rattle.sheet.specs.Literals.{has};
ghost use Rattle.sheet.specs.declared.clause.Tag.TheVariants.{Working};
ghost use Rattle.sheet.specs.Sheets.{used_clauses, used_row};
ghost use Rattle.std.specs.List.{between};
ghost use Rattle.steps.specs.Rewriting.{lacking};
ghost use Rattle.steps.specs.Strengthening.{StrengtheningRuns, strengthening};
ghost use Rattle.steps.proofs.Strengthened.{strengthening_keeps};
ghost use Rattle.strengthening.specs.Leaving.{leaves, yielded, yields_to};

use marking::Marked;
use meaning::report::Report;
use places::{Found, Test, first_place, is_plain};
use rules::rule::Rule;
use rules::technique::{Technique, repeat};
use sheet::buffers::Desk;
use sheet::clause::{Place, write_header};
use sheet::clauses::Clauses;
use sheet::literal::{has_literal, opposite};
use sheet::refusal::Refusal;
use sheet::row::Item;
use sheet::words::slide;
use weight::Weight;

// Whether a literal is the denial or marked.
fn stays(marked: &Marked, denial: u16, x: u16) -> bool
    ensures { result ≡ (x == denial || has x marked.now) }
{
    x == denial || marked.has(x)
}

// Whether a clause with the literals `other` has the denial, and otherwise only marked literals. Most clauses soon show a literal that is neither,
// so that is asked first.
fn yields(marked: &Marked, denial: u16, other: &[u16]) -> bool
    ensures { result ≡ yields_to marked.now denial (record { tag = Working; lits = other.now }) }
{
    other.iter().all(|x| stays(marked, denial, *x)) && has_literal(other, denial)
}

// Whether one of the clauses does, with the denial of `w`. Not inlined: its loop over the clauses then has the registers to itself.
#[inline(never)]
fn some_yields(clauses: &Clauses<'_>, marked: &Marked, w: u16) -> bool
    ensures { result ≡ yielded clauses.now marked.now w }
{
    let denial = opposite(w);
    clauses
        .iter()
        .any(|clause| yields(marked, denial, clause.lits))
}

// A plain literal may leave where a clause yields its resolvent. The search begins anew for each step.
#[derive(Clone, Copy)]
struct Leaving {}

impl Test for Leaving {
    ghost test = { λ t. leaves };

    fn passes(&self, row: &[Item], clauses: &Clauses<'_>, marked: &Marked, w: u16) -> bool {
        is_plain(row, w) && some_yields(clauses, marked, w)
    }
}

// Takes a literal out of its clause: the words behind it move down by one. Returns where they end then. By words, since it moves them.
#[tactic(auto, using(crate::proofs::Striking::few, crate::proofs::Striking::laid_struck, crate::proofs::Striking::clauses_struck))]
fn strike(sheet: &mut [u16], fill: usize, found: Found) -> usize
    requires fits { fill ≤ length sheet.old }
    requires front { Laid (take found.at sheet.old) }
    requires step { Step sheet.old found.at fill found.place }
    requires low { found.place.from ≤ found.literal }
    requires high { found.literal < found.place.to }
    ensures end { result + 1 ≡ fill }
    ensures laid { Laid (take result sheet.new) }
    ensures struck { clauses (take result sheet.new) ≡ clauses (take found.at sheet.old) ++ lacking (slice_index sheet.old found.literal) (placed sheet.old found.place) ∷ clauses (between found.place.end fill sheet.old) }
{
    let Found { at, place, literal } = found;
    let Place { tag, from, to, .. } = place;
    write_header(sheet, at, tag, to - from - 1);
    slide(sheet, literal, literal + 1, fill)
}

impl<W: Weight> Technique<W> for Leaving {
    type Place = Found;

    ghost step = { λ V k. strengthening };

    ghost fits = { λ V k room t. true };

    ghost ready = { λ s b. ⊤ };

    ghost found = { λ s b p. SpotAt (leaves (used_row b) (used_clauses b)) b.sheet b.marks.sheet p };

    ghost keeps = { λ room. strengthening_keeps W.Weight.lawful };

    fn find(&mut self, desk: &Desk<'_, W>) -> Option<Found> {
        first_place(self, desk.buffers())
    }

    fn make(&mut self, desk: &mut Desk<'_, W>, found: Found) -> bool {
        let fill = desk.marks.sheet;
        desk.marks.sheet = strike(desk.sheet, fill, found);
        true
    }
}

#[derive(Clone, Copy)]
pub struct Strengthening {}

impl<W: Weight> Rule<W> for Strengthening {
    ghost runs = { λ r V k room. StrengtheningRuns };

    fn run(&self, desk: &mut Desk<'_, W>, limit: u64) -> Result<Report, Refusal> {
        repeat(&mut Leaving {}, desk, limit)
    }
}
