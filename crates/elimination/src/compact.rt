// The clauses with the item or its denial go, and the others move down over the gaps.
ghost use Rattle.std.specs.Prelude.{◌≡◌, ◌≤◌, length, take, filter};
ghost use Rattle.sheet.specs.Clauses.{Laid, clauses};
ghost use Rattle.sheet.specs.declared.clause.Tag.TheVariants.{Working};
ghost use Rattle.steps.specs.Elimination.{lacks_both};

use sheet::clauses::retain;
use sheet::literal::{has_literal, opposite};

fn is_apart(lits: &[u16], x: u16) -> bool
    ensures { result ≡ lacks_both x (record { tag = Working; lits = lits.now }) }
{
    !(has_literal(lits, x) || has_literal(lits, opposite(x)))
}

// Removes the clauses of item `x` from the first `fill` words, which it writes to, and answers the new fill.
pub(crate) fn drop_item(sheet: &mut [u16], fill: usize, x: u16) -> usize
    requires fits { fill ≤ length sheet.old }
    requires laid { Laid (take fill sheet.old) }
    ensures shrinks { result ≤ fill }
    ensures laid { Laid (take result sheet.new) }
    ensures kept { clauses (take result sheet.new) ≡ filter (lacks_both x) (clauses (take fill sheet.old)) }
{
    retain(sheet, fill, |_, lits| is_apart(lits, x))
}
