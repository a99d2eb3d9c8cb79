// Which clauses resolve on an item. The literals of the clause that has the item are marked, so each clause that denies it is looked at in
// one pass over its own literals.
ghost use Rattle.std.specs.Prelude.{◌≡◌};
ghost use Rattle.elimination.specs.Resolving.{working, pairs_with};
ghost use Rattle.steps.specs.Elimination.{clashes_at};
ghost use Rattle.steps.specs.Places.{some as some_word};

use marking::Marked;
use sheet::literal::{has_literal, opposite};

// Whether `d` denies a literal of the marked clause other than `x`.
fn clashes(marked: &Marked, d: &[u16], x: u16) -> bool
    ensures { result ≡ some_word (clashes_at x (working d.now)) marked.now }
{
    d.iter().any(|w| marked.other_denied(x, *w))
}

// Whether `d` denies `x` and has with the marked clause a resolvent on it that is no tautology.
pub(crate) fn resolves(marked: &Marked, d: &[u16], x: u16) -> bool
    ensures { result ≡ pairs_with x (working marked.now) (working d.now) }
{
    has_literal(d, opposite(x)) && !clashes(marked, d, x)
}
