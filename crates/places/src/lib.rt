// The search that techniques on a clause and one of its literals share: the first clause in sheet order, and in it the lowest literal, that
// passes a test against all the clauses. The clause is marked once, so a test reads each other clause in one pass.
#![tactic(auto)]

ghost use Rattle.std.specs.Prelude.{◌≡◌, ℕ, ◌+◌, ◌<◌, ◌≤◌, List, length, take};
ghost use Rattle.places.specs.Asking.{Asked};
ghost use Rattle.places.specs.Spots.{FoundIn, WordFound};
ghost use Rattle.sheet.specs.Clauses.{Laid};
ghost use Rattle.sheet.specs.Lending.{lent_in};
ghost use Rattle.sheet.specs.Literals.{has};
ghost use Rattle.steps.specs.Rewriting.{plain_lit};

use marking::Marked;
use sheet::buffers::Buffers;
use sheet::clause::{Place, read};
use sheet::clauses::Clauses;
use sheet::literal::item;
use sheet::row::{Item, Standing};

// Whether the literal's item is live and plain.
pub fn is_plain(row: &[Item], w: u16) -> bool
    ensures { result ≡ plain_lit row.now w }
{
    match item(w) {
        0 => false,
        i => row
            .get(i - 1)
            .is_some_and(|x| matches!(x.standing, Standing::Plain)),
    }
}

// A trait and no closure: its contract names what is asked, where that of a closure would speak of every test.
pub trait Test {
    // What is asked of a literal.
    ghost test: { Self → Asked };

    // Whether the literal passes in the clause that is marked, in whatever order its literals stand.
    fn passes(&self, row: &[Item], clauses: &Clauses<'_>, marked: &Marked, w: u16) -> bool
        ensures marked { result ≡ test self.now row.now clauses.now marked.now w }
        ensures order { (lits : List ℕ) → ((x : ℕ) → has x marked.now ≡ has x lits) → result ≡ test self.now row.now clauses.now lits w };
}

// Where a clause with a literal that passes lies.
#[derive(Clone, Copy)]
pub struct Found {
    // where its header stands
    pub at: usize,
    pub place: Place,
    // where the literal stands
    pub literal: usize,
}

// Which of the literals of the marked clause is the first that passes.
fn first_literal<T: Test>(
    test: &T,
    row: &[Item],
    clauses: &Clauses<'_>,
    marked: &Marked,
    lits: &[u16],
) -> Option<usize>
    ensures { WordFound (T.Test.test test.now row.now clauses.now marked.now) lits.now result }
{
    lits.iter()
        .position(|w| test.passes(row, clauses, marked, *w))
}

// A clause's place, with its literal `i`.
fn located(at: usize, place: Place, i: usize) -> Found
    requires { place.from + i < place.to }
    ensures { result ≡ record { at = at; place = place; literal = place.from + i } }
{
    let literal = place.from + i;
    Found { at, place, literal }
}

// The first place that passes. Not inlined: its table would lie on the stack beside that of the check that a run begins with.
#[inline(never)]
#[tactic(auto, using(crate::proofs::Searching::searching_inside, crate::proofs::Searching::searching_done))]
pub fn first_place<T: Test, W>(test: &T, lent: Buffers<'_, W>) -> Option<Found>
    requires fits { lent.marks.sheet ≤ length lent.sheet.now }
    requires laid { Laid (take lent.marks.sheet lent.sheet.now) }
    ensures { FoundIn (T.Test.test test.now) (lent_in lent.entry) result }
{
    let sheet = lent.sheet;
    let fill = lent.marks.sheet;
    let row = lent.items();
    let clauses = lent.clauses();
    let mut marked = Marked::none();
    let mut at = 0;
    // a cursor, since what is found is where it lies
    while at < fill {
        let place = read(sheet, fill, at);
        let lits = &sheet[place.from..place.to];
        marked.mark(lits);
        if let Some(i) = first_literal(test, row, &clauses, &marked, lits) {
            return Some(located(at, place, i));
        }
        marked.unmark(lits);
        at = place.end;
    }
    None
}
