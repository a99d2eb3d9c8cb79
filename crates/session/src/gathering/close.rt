// Close: every soft clause gets its label, and the sheet works from then on.
ghost use Rattle.std.specs.Prelude.{◌≡◌};
ghost use Rattle.sheet.specs.Sheets.{lent};
ghost use Rattle.session.specs.Closing.{CloseAnswered, CloseFaithful, label_cause};
ghost use Rattle.session.specs.Refusing.{ok_unless};

use crate::gathering::Gathering;
use crate::working::Working;
use checking::holds_together;
use closing::survey::Survey;
use sheet::buffers::{Buffers, Counts, Marks, Phase};
use sheet::clauses::Clauses;
use sheet::refusal::Refusal;
use sheet::row::Item;
use weight::Weight;

fn labels_fit(needed: usize, room: usize) -> Result<(), Refusal>
    ensures { result ≡ ok_unless (label_cause needed room) }
{
    if needed > room {
        return Err(Refusal::NoRowForLabels(needed));
    }
    Ok(())
}

impl Gathering {
    // What the call answers. That it stays faithful follows from the answer alone, once for every way out, so it is said outside.
    fn label<W: Weight>(
        self,
        sheet: &mut [u16],
        row: &mut [Item],
        stack: &[u16],
        weights: &[W],
    ) -> Result<Working, (Gathering, Refusal)>
        ensures { CloseAnswered W.Weight (lent sheet.old row.old stack.now weights.now self.marks self.counts) (lent sheet.new row.new stack.now weights.now) result }
    {
        let marks = self.marks;
        let counts = self.counts;
        if let Err(part) = holds_together(
            Phase::Gathering,
            Buffers {
                sheet,
                row,
                stack,
                weights,
                marks,
                counts,
            },
        ) {
            return Err((self, part.into()));
        }
        let clauses = Clauses::of(&sheet[..marks.sheet]);
        let survey = Survey::of(&clauses);
        let needed = survey.items_needed(&clauses, counts.items);
        if let Err(cause) = labels_fit(needed, row.len()) {
            return Err((self, cause));
        }
        let closed = closing::close(sheet, marks.sheet, row, counts.items, &survey);
        Ok(Working::of(
            Marks {
                sheet: closed.fill,
                stack: marks.stack,
            },
            Counts {
                callers: counts.callers,
                items: closed.items,
                softs: counts.softs,
            },
        ))
    }

    // A refused close gives the state back.
    pub fn close<W: Weight>(
        self,
        sheet: &mut [u16],
        row: &mut [Item],
        stack: &[u16],
        weights: &[W],
    ) -> Result<Working, (Gathering, Refusal)>
        ensures answer { CloseAnswered W.Weight (lent sheet.old row.old stack.now weights.now self.marks self.counts) (lent sheet.new row.new stack.now weights.now) result }
        ensures faithful { CloseFaithful W.Weight (lent sheet.old row.old stack.now weights.now self.marks self.counts) (lent sheet.new row.new stack.now weights.now) result }
    {
        self.label(sheet, row, stack, weights)
    }
}
