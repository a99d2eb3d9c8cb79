// From an answer to the plan that it unwinds to: the reconstruction stack is followed from its newest record to its oldest.
ghost use Rattle.std.specs.Prelude.{◌≡◌, ◌≤◌, not, length, take, ◌==◌};
ghost use Rattle.meaning.specs.Unwinding.{mended, plan_of};
ghost use Rattle.sheet.specs.Literals.{Literal, denied};
ghost use Rattle.std.specs.List.{AllByRecursion};
ghost use Rattle.unwinding.specs.Bytes.{Bits, record_of, row_and_stack, values_of};

use crate::bytes::reset_retired;
use crate::clauses::is_met;
use sheet::literal::{is_denied, item};
use sheet::records::Records;
use sheet::row::Item;

// The byte with which a literal is true.
fn byte_of(w: u16) -> u8
    ensures value { (result == 1) ≡ not (denied w) }
    ensures bit { result ≤ 1 }
{
    u8::from(!is_denied(w))
}

// Where a record's clause is unmet, its witness is made true.
fn mend(answer: &mut [u8], lits: &[u16], witness: u16)
    requires witness { Literal (length answer.old) witness }
    requires bits { Bits answer.old }
    ensures mended { values_of answer.new ≡ mended (record_of lits.now witness) (values_of answer.old) }
    ensures bits { Bits answer.new }
{
    if !is_met(lits, answer) {
        answer[item(witness) - 1] = byte_of(witness);
    }
}

// Makes the answer the plan that it unwinds to, by the first items of the row, as many as the answer has.
pub fn unwind(answer: &mut [u8], row: &[Item], records: &Records<'_>)
    requires row { length answer.old ≤ length row.now }
    requires bits { Bits answer.old }
    requires literals { AllByRecursion (λ r. AllByRecursion (Literal (length answer.old)) r.lits) records.now }
    ensures plan { values_of answer.new ≡ plan_of (row_and_stack (take (length answer.old) row.now) records.now) (values_of answer.old) }
    ensures bits { Bits answer.new }
{
    reset_retired(answer, row);
    for record in records.iter() {
        mend(answer, record.lits, record.witness);
    }
}
