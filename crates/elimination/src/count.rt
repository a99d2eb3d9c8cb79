// How many clauses an item has, and whether its resolvents are no more.
ghost use Rattle.std.specs.Prelude.{◌≡◌, ◌+◌, ◌<◌, ◌≤◌, [], length, MatchOption, nat_le};
ghost use Rattle.elimination.specs.Resolving.{working, resolvents_in};
ghost use Rattle.sheet.specs.Literals.{opposite as denial};
ghost use Rattle.steps.specs.Elimination.{resolvents};
ghost use Rattle.steps.specs.Rewriting.{having};

use crate::pair::resolves;
use marking::Marked;
use sheet::clauses::Clauses;
use sheet::literal::{has_literal, opposite};

// How many clauses have the literal `w`. Not inlined: its loop over the clauses then has the registers to itself.
#[inline(never)]
fn count_having(clauses: &Clauses<'_>, w: u16) -> usize
    requires few { length clauses.now ≤ 32768 }
    ensures { result ≡ length (having w clauses.now) }
{
    clauses
        .iter()
        .filter(|clause| has_literal(clause.lits, w))
        .count()
}

// What is left of `most` after one for each resolvent on `x` of the marked clause, or None where they are more.
// Not inlined: its loop over the clauses then has the registers to itself.
#[inline(never)]
fn spend(clauses: &Clauses<'_>, x: u16, marked: &Marked, most: usize) -> Option<usize>
    ensures { MatchOption result (most < length (resolvents_in x (working marked.now) clauses.now)) (λ m. m + length (resolvents_in x (working marked.now) clauses.now) ≡ most) }
{
    let mut rest = most;
    for other in clauses.iter() {
        if resolves(marked, other.lits, x) {
            rest = rest.checked_sub(1)?;
        }
    }
    Some(rest)
}

// Whether the resolvents on an item are no more than its clauses.
#[tactic(auto, using(crate::proofs::Pairing::few_pass))]
pub(crate) fn is_bounded(clauses: &Clauses<'_>, x: u16, marked: &mut Marked) -> bool
    requires few { length clauses.now ≤ 32768 }
    requires clear { marked.old ≡ [] }
    ensures clear { marked.new ≡ [] }
    ensures bounded { result ≡ nat_le (length (resolvents x clauses.now)) (length (having x clauses.now) + length (having (denial x) clauses.now)) }
{
    let mut rest = count_having(clauses, x) + count_having(clauses, opposite(x));
    for clause in clauses.iter() {
        if has_literal(clause.lits, x) {
            marked.mark(clause.lits);
            let spent = spend(clauses, x, marked, rest);
            marked.unmark(clause.lits);
            match spent {
                Some(left) => rest = left,
                None => return false,
            }
        }
    }
    true
}
