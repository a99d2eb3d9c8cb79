// Blocked clause elimination. A clause goes if one of its plain literals, the witness, is denied only by clauses that also deny another plain literal of
// it: where an answer of the others leaves the clause unmet, each of those clauses is met by that other denial, so the witness can
// be made true. The clause is recorded with its witness, and unwinding does just that.
#![tactic(auto)]

ghost use Rattle.std.specs.Prelude.{◌≡◌, ◌+◌, ◌-◌, ◌<◌, ◌≤◌, ◌&&◌, min, ◌++◌, length, take, nat_le, ⊤};
ghost use Rattle.places.specs.Spots.{SpotAt};
ghost use Rattle.blocking.specs.Blocks.{all_block, blocked_in, blocks_in, record_at};
ghost use Rattle.marking.specs.Marks.{other_denied};
ghost use Rattle.sheet.specs.ClauseSteps.{Step};
ghost use Rattle.sheet.specs.Clauses.{Laid, clauses};
ghost use Rattle.sheet.specs.Records.{record_words};
ghost use Rattle.sheet.specs.declared.clause.Tag.TheVariants.{Working};
ghost use Rattle.sheet.specs.Sheets.{used_clauses, used_row};
ghost use Rattle.std.specs.List.{between};
ghost use Rattle.steps.specs.Blocking.{BlockingRuns, block_fits, blocking, first_blocked};
ghost use Rattle.steps.proofs.Blocked.{blocking_keeps};
ghost use Rattle.steps.specs.Rewriting.{plain_lit};

use marking::Marked;
use meaning::report::Report;
use places::{Found, Test, first_place, is_plain};
use rules::rule::Rule;
use rules::technique::{Technique, repeat};
use sheet::buffers::{Desk, Marks, WORDS};
use sheet::clause::Place;
use sheet::clauses::Clauses;
use sheet::literal::{has_literal, opposite};
use sheet::record::push;
use sheet::refusal::Refusal;
use sheet::row::Item;
use sheet::words::slide;
use weight::Weight;

// The code of a blocked clause's record. No enum: the layout takes any code from 1 to 15, and `push` as well.
const BLOCKED: u16 = 2;

// Whether a literal denies a plain literal other than `w` that is marked.
fn denies_other(row: &[Item], marked: &Marked, w: u16, y: u16) -> bool
    ensures { result ≡ (plain_lit row.now y && other_denied w y marked.now) }
{
    is_plain(row, y) && marked.other_denied(w, y)
}

// Whether a clause with the literals `other` lacks the denial of `w`, or denies another plain literal of the marked clause.
fn clause_blocks(row: &[Item], marked: &Marked, w: u16, other: &[u16]) -> bool
    ensures { result ≡ blocks_in row.now marked.now w (record { tag = Working; lits = other.now }) }
{
    !has_literal(other, opposite(w)) || other.iter().any(|y| denies_other(row, marked, w, *y))
}

// Whether each clause does. Not inlined: its loop over the clauses then has the registers to itself.
#[inline(never)]
fn all_block(row: &[Item], clauses: &Clauses<'_>, marked: &Marked, w: u16) -> bool
    ensures { result ≡ all_block row.now clauses.now marked.now w }
{
    clauses
        .iter()
        .all(|clause| clause_blocks(row, marked, w, clause.lits))
}

// A plain literal blocks its clause where each clause stands to it so. The search begins anew for each step.
#[derive(Clone, Copy)]
struct Blocked {}

impl Test for Blocked {
    ghost test = { λ t. blocked_in };

    fn passes(&self, row: &[Item], clauses: &Clauses<'_>, marked: &Marked, w: u16) -> bool {
        is_plain(row, w) && all_block(row, clauses, marked, w)
    }
}

// Whether the record of the clause at a place fits behind the first `fill` words of a stack of this length.
fn record_fits(length: usize, fill: usize, place: Place) -> bool
    requires fill { fill ≤ 32768 }
    requires order { place.from ≤ place.to }
    requires count { place.to < place.from + 4096 }
    ensures { result ≡ nat_le (fill + (place.to - place.from) + 2) (min length 32768) }
{
    fill + (place.to - place.from) + 2 <= length.min(WORDS)
}

// Records the clause behind the words of the stack, and removes it: the clauses behind it move down. By words, since it moves them.
#[tactic(auto, using(sheet::proofs::Laying::laid_append, sheet::proofs::Laying::clauses_append))]
fn take_out(sheet: &mut [u16], stack: &mut [u16], marks: &mut Marks, found: Found)
    requires fits { marks.old.sheet ≤ length sheet.old }
    requires front { Laid (take found.at sheet.old) }
    requires step { Step sheet.old found.at marks.old.sheet found.place }
    requires low { found.place.from ≤ found.literal }
    requires high { found.literal < found.place.to }
    requires room { marks.old.stack + (found.place.to - found.place.from) + 2 ≤ length stack.old }
    ensures end { marks.new.stack ≡ marks.old.stack + (found.place.to - found.place.from) + 2 }
    ensures words { take marks.new.stack stack.new ≡ take marks.old.stack stack.old ++ record_words (record_at sheet.old found) }
    ensures shrinks { marks.new.sheet ≤ marks.old.sheet }
    ensures laid { Laid (take marks.new.sheet sheet.new) }
    ensures removed { clauses (take marks.new.sheet sheet.new) ≡ clauses (take found.at sheet.old) ++ clauses (between found.place.end marks.old.sheet sheet.old) }
{
    let Found { at, place, literal } = found;
    let Place { from, to, end, .. } = place;
    let lits = &sheet[from..to];
    marks.stack = push(stack, marks.stack, BLOCKED, lits, sheet[literal]);
    marks.sheet = slide(sheet, at, end, marks.sheet);
}

impl<W: Weight> Technique<W> for Blocked {
    type Place = Found;

    ghost step = { λ V k. blocking };

    ghost fits = { λ V k room t. block_fits room t (first_blocked t) };

    ghost ready = { λ s b. ⊤ };

    ghost found = { λ s b p. SpotAt (blocked_in (used_row b) (used_clauses b)) b.sheet b.marks.sheet p };

    ghost keeps = { blocking_keeps W.Weight.lawful };

    fn find(&mut self, desk: &Desk<'_, W>) -> Option<Found> {
        first_place(self, desk.buffers())
    }

    fn make(&mut self, desk: &mut Desk<'_, W>, found: Found) -> bool {
        if !record_fits(desk.stack.len(), desk.marks.stack, found.place) {
            return false;
        }
        take_out(desk.sheet, desk.stack, &mut desk.marks, found);
        true
    }
}

#[derive(Clone, Copy)]
pub struct Blocking {}

impl<W: Weight> Rule<W> for Blocking {
    ghost runs = { λ r V k room. BlockingRuns room };

    fn run(&self, desk: &mut Desk<'_, W>, limit: u64) -> Result<Report, Refusal> {
        repeat(&mut Blocked {}, desk, limit)
    }
}
