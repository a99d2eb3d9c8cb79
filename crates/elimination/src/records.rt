// The records of an elimination: each clause that has the item, with the item as witness.
ghost use Rattle.std.specs.Prelude.{◌≡◌, ◌+◌, ◌<◌, ◌≤◌, ◌++◌, length, take};
ghost use Rattle.elimination.specs.Resolving.{working};
ghost use Rattle.elimination.specs.Writing.{Wrote};
ghost use Rattle.sheet.specs.Records.{encode_stack, record_words};
ghost use Rattle.steps.specs.Elimination.{elimination_record, elimination_records};

use sheet::clauses::Clauses;
use sheet::literal::has_literal;
use sheet::record::push;

// The code of an elimination's record. No enum: the layout takes any code from 1 to 15, and `push` as well.
const REPAIR: u16 = 1;

fn push_clause(stack: &mut [u16], fill: usize, lits: &[u16], x: u16) -> usize
    requires room { fill + length lits.now + 2 ≤ length stack.old }
    requires count { length lits.now < 4096 }
    ensures end { result ≡ fill + length lits.now + 2 }
    ensures words { take result stack.new ≡ take fill stack.old ++ record_words (elimination_record x (working lits.now)) }
{
    push(stack, fill, REPAIR, lits, x)
}

// Records the clauses with `x` in free words. Answers how many words they take, or None where they do not fit.
pub(crate) fn push_all(clauses: &Clauses<'_>, x: u16, free: &mut [u16]) -> Option<usize>
    ensures { Wrote free.old free.new (encode_stack (elimination_records x clauses.now)) result }
{
    let mut n = 0;
    for clause in clauses.iter() {
        let lits = clause.lits;
        if has_literal(lits, x) {
            if free.len() - n < lits.len() + 2 {
                return None;
            }
            n = push_clause(free, n, lits, x);
        }
    }
    Some(n)
}
