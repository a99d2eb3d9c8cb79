// Unit propagation. A clause of one literal makes that literal true in every answer: clauses with it are met and go, its denial leaves
// the others, and its item is retired. The record of the unit brings the item back when an answer is unwound.
#![tactic(auto)]

ghost use Rattle.std.specs.Prelude.{◌≡◌, ◌+◌, ◌≤◌, min, ◌++◌, length, take, Some, nat_le, ⊤};
ghost use Rattle.sheet.specs.Literals.{item_of};
ghost use Rattle.sheet.specs.Records.{record_words};
ghost use Rattle.sheet.specs.Rows.{item_at};
ghost use Rattle.sheet.specs.Sheets.{used_clauses};
ghost use Rattle.steps.specs.Propagation.{PropagationRuns, first_unit, propagation, settled_as, unit_fits, unit_of, unit_record};
ghost use Rattle.steps.specs.Rewriting.{retired};
ghost use Rattle.steps.proofs.Propagated.{propagation_keeps};

use meaning::report::Report;
use rewriting::{make_true, retire};
use rules::rule::Rule;
use rules::technique::{Technique, repeat};
use sheet::buffers::{Desk, Marks, WORDS};
use sheet::clauses::Clauses;
use sheet::literal::item;
use sheet::record::push;
use sheet::refusal::Refusal;
use sheet::row::{Item, Standing};
use weight::Weight;

// The code of a unit's record. No enum: the layout takes any code from 1 to 15, and `push` as well.
const UNIT: u16 = 3;

// The literal of a clause that has no other.
fn unit(lits: &[u16]) -> Option<u16>
    ensures { result ≡ unit_of lits.now }
{
    match lits {
        [] => None,
        [only] => Some(*only),
        [_first, _rest @ ..] => None,
    }
}

// The literal of the first clause that has no other. Not inlined: its loop over the clauses then has the registers to itself.
#[inline(never)]
#[tactic(auto, using(crate::proofs::Units::unit_rest))]
fn first_unit(clauses: &Clauses<'_>) -> Option<u16>
    ensures { result ≡ first_unit clauses.now }
{
    for clause in clauses.iter() {
        if let Some(w) = unit(clause.lits) {
            return Some(w);
        }
    }
    None
}

// Whether the three words of a unit's record fit behind the mark, on a stack of this length.
fn record_fits(length: usize, mark: usize) -> bool
    requires { mark ≤ 32768 }
    ensures { result ≡ nat_le (mark + 3) (min length 32768) }
{
    mark + 3 <= length.min(WORDS)
}

// Puts the record of a unit on the stack, and returns where it ends.
fn record_unit(stack: &mut [u16], mark: usize, w: u16) -> usize
    requires { mark + 3 ≤ length stack.old }
    ensures end { result ≡ mark + 3 }
    ensures words { take result stack.new ≡ take mark stack.old ++ record_words (unit_record w) }
{
    push(stack, mark, UNIT, &[w], w)
}

// How an item stands once its value is settled.
fn settled(standing: Standing) -> Standing
    ensures { result ≡ settled_as standing }
{
    match standing {
        Standing::Plain => Standing::Fixed,
        Standing::Label => Standing::Forced,
        Standing::Fixed | Standing::Covered | Standing::Forced => standing,
    }
}

// Retires the item of a literal that is true from now on.
#[tactic(auto, using(rewriting::proofs::Rows::item_is))]
fn settle(row: &mut [Item], w: u16)
    requires low { 1 ≤ item_of w }
    requires high { item_of w ≤ length row.old }
    ensures { row.new ≡ retired row.old (item_of w) (settled_as (item_at row.old (item_of w)).standing) }
{
    let i = item(w);
    let standing = settled(row[i - 1].standing);
    retire(row, i, standing);
}

// One step after another; the search begins anew for each.
#[derive(Clone, Copy)]
struct Search {}

impl<W: Weight> Technique<W> for Search {
    type Place = u16;

    ghost step = { λ V k. propagation };

    ghost fits = { λ V k room t. unit_fits room t (first_unit t.clauses) };

    ghost ready = { λ s b. ⊤ };

    ghost found = { λ s b w. first_unit (used_clauses b) ≡ Some w };

    ghost keeps = { propagation_keeps W.Weight.lawful };

    fn find(&mut self, desk: &Desk<'_, W>) -> Option<u16> {
        first_unit(&desk.buffers().clauses())
    }

    fn make(&mut self, desk: &mut Desk<'_, W>, w: u16) -> bool {
        let Marks { sheet, stack } = desk.marks;
        if !record_fits(desk.stack.len(), stack) {
            return false;
        }
        desk.marks.stack = record_unit(desk.stack, stack, w);
        desk.marks.sheet = make_true(desk.sheet, sheet, w);
        settle(desk.row, w);
        true
    }
}

#[derive(Clone, Copy)]
pub struct Propagation {}

impl<W: Weight> Rule<W> for Propagation {
    ghost runs = { λ r V k room. PropagationRuns room };

    fn run(&self, desk: &mut Desk<'_, W>, limit: u64) -> Result<Report, Refusal> {
        repeat(&mut Search {}, desk, limit)
    }
}
