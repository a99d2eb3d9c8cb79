// A rule of the preprocessor: it offers one thing, the run, over the lent buffers of a working sheet. Whatever keeps the contract of the
// run is a rule; the six techniques and the piles made of them are some.
ghost use Rattle.meaning.specs.Steps.{Runs};
ghost use Rattle.rules.specs.Answering.{RunAnswered};
ghost use Rattle.sheet.specs.Lending.{SameLoans, lent_on};
ghost use Rattle.sheet.specs.Sheets.{Sheet};
ghost use Rattle.steps.specs.Rooms.{Room};
ghost use Rattle.weight.specs.Kind.{Kind};

use meaning::report::Report;
use sheet::buffers::Desk;
use sheet::refusal::Refusal;
use weight::Weight;

pub trait Rule<W: Weight> {
    // What the rule says it runs: from a limit and a sheet, in buffers of this room, to what they come to, for any kind of weight.
    ghost runs: { Self → (V : Type 0) → Kind V → Room → Runs (Sheet V) };

    // Makes at most `limit` steps. It refuses only buffers that do not hold together.
    fn run(&self, desk: &mut Desk<'_, W>, limit: u64) -> Result<Report, Refusal>
        ensures answer { RunAnswered W.Weight (runs self.now W.Weight.Value W.Weight.kind) limit (lent_on desk.old) (lent_on desk.new) result }
        ensures loans { SameLoans desk.old desk.new };
}
