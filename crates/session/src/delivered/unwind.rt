// Unwind: a solver's answer, in bytes, becomes the plan that it unwinds to.
ghost use Rattle.std.specs.Prelude.{◌≡◌, ◌≤◌, length, take};
ghost use Rattle.meaning.specs.Unwinding.{plan_of};
ghost use Rattle.sheet.specs.Clauses.{Laid, clauses};
ghost use Rattle.sheet.specs.Sheets.{lent};
ghost use Rattle.unwinding.specs.Bytes.{Bits, row_and_stack, values_of};
ghost use Rattle.unwinding.specs.Charges.{paid_cost_in, sheet_cost_in};
ghost use Rattle.session.specs.Refusing.{ok_unless};
ghost use Rattle.session.specs.Unwound.{Unwindable, UnwindAnswered, UnwindFaithful, answer_cause};

use crate::delivered::Delivered;
use checking::holds_together;
use sheet::buffers::{Buffers, Counts, Phase};
use sheet::records::Records;
use sheet::refusal::Refusal;
use sheet::row::Item;
use unwinding::{Bill, cost, first_above_one, first_unmet, unwind};
use weight::Weight;

// Whether the answer has a byte for each item, each of them 0 or 1, and meets the clauses that lie in these words.
fn answers(answer: &[u8], items: usize, sheet: &[u16]) -> Result<(), Refusal>
    requires { Laid sheet.now }
    ensures { result ≡ ok_unless (answer_cause items (clauses sheet.now) answer.now) }
{
    if answer.len() != items {
        return Err(Refusal::AnswerLength(items));
    }
    if let Some(place) = first_above_one(answer) {
        return Err(Refusal::NeitherYesNorNo(place));
    }
    if let Some(number) = first_unmet(sheet, answer) {
        return Err(Refusal::ClauseUnmet(number));
    }
    Ok(())
}

// Makes the answer the plan that it unwinds to. Returns what it cost as it was sent, and what the plan pays; neither passes
// the ceiling, since the total of the weights does not.
fn unwind_costed<W: Weight>(
    answer: &mut [u8],
    row: &[Item],
    records: &Records<'_>,
    weights: &[W],
) -> (W, W)
    requires { Unwindable W.Weight answer.old row.now records.now weights.now }
    ensures plan { values_of answer.new ≡ plan_of (row_and_stack (take (length answer.old) row.now) records.now) (values_of answer.old) }
    ensures bits { Bits answer.new }
    ensures sent { W.Weight.value result.0 ≡ sheet_cost_in W.Weight row.now weights.now answer.old }
    ensures paid { W.Weight.value result.1 ≡ paid_cost_in W.Weight row.now weights.now answer.new }
{
    let sent = cost(Bill::Sheet, row, weights, answer).unwrap();
    unwind(answer, row, records);
    let paid = cost(Bill::Plan, row, weights, answer).unwrap();
    (sent, paid)
}

impl Delivered {
    // What the call answers. That it stays faithful follows from the answer alone, once for every way out, so it is said outside.
    fn planned<W: Weight>(
        &self,
        answer: &mut [u8],
        sheet: &[u16],
        row: &[Item],
        stack: &[u16],
        weights: &[W],
    ) -> Result<(W, W), Refusal>
        ensures { UnwindAnswered W.Weight (lent sheet.now row.now stack.now weights.now self.now.marks self.now.counts) answer.old answer.new result }
    {
        let marks = self.marks;
        let counts = self.counts;
        holds_together(
            Phase::Working,
            Buffers {
                sheet,
                row,
                stack,
                weights,
                marks,
                counts,
            },
        )?;
        let Counts { items, softs, .. } = counts;
        answers(answer, items, &sheet[..marks.sheet])?;
        let records = Records::of(&stack[..marks.stack]);
        Ok(unwind_costed(answer, &row[..items], &records, &weights[..softs]))
    }

    // Returns what the answer as it was sent costs on the sheet, and then what all labels cost that the plan pays.
    pub fn unwind<W: Weight>(
        &self,
        answer: &mut [u8],
        sheet: &[u16],
        row: &[Item],
        stack: &[u16],
        weights: &[W],
    ) -> Result<(W, W), Refusal>
        ensures answer { UnwindAnswered W.Weight (lent sheet.now row.now stack.now weights.now self.now.marks self.now.counts) answer.old answer.new result }
        ensures faithful { UnwindFaithful W.Weight (lent sheet.now row.now stack.now weights.now self.now.marks self.now.counts) answer.new result }
    {
        self.planned(answer, sheet, row, stack, weights)
    }
}
