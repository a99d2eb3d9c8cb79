// A rule that makes one step after another: it says how the place of the next step is found and how the step is made, and the loop
// round them is the same for all.
ghost use Rattle.std.specs.Prelude.{◌≡◌, Bool, None, Option, MatchOption, true};
ghost use Rattle.rules.specs.Answering.{RunAnswered};
ghost use Rattle.rules.specs.Stepping.{IsThere, StepAnswered, repeats};
ghost use Rattle.sheet.specs.Lending.{SameLoans, lent_on};
ghost use Rattle.sheet.specs.Sheets.{Lent, Sheet, decoded};
ghost use Rattle.sheet.specs.Together.{HoldsTogether};
ghost use Rattle.sheet.specs.declared.buffers.Phase.TheVariants.{Working};
ghost use Rattle.steps.specs.Keeping.{KeepsMeaning};
ghost use Rattle.steps.specs.Rooms.{Room};
ghost use Rattle.weight.specs.Kind.{Kind};

use checking::holds_together;
use meaning::report::{Ending, Report};
use sheet::buffers::{Desk, Phase};
use sheet::refusal::Refusal;
use weight::Weight;

pub trait Technique<W: Weight> {
    // Where a step is made.
    type Place: Copy;

    // The step on the sheet that the buffers stand for, at the first place.
    ghost step: { (V : Type 0) → Kind V → Sheet V → Option (Sheet V) };

    // Whether its words fit in buffers of this room.
    ghost fits: { (V : Type 0) → Kind V → Room → Sheet V → Bool };

    // What the search knows of the buffers, between the steps and at a place that it has found.
    ghost ready: { Self → Lent W → Type 0 };

    ghost found: { Self → Lent W → Self.Place → Type 0 };

    fn find(&mut self, desk: &Desk<'_, W>) -> Option<Self::Place>
        requires together { HoldsTogether W.Weight Working (lent_on desk.now) }
        requires ready { ready self.old (lent_on desk.now) }
        ensures { MatchOption result (step W.Weight.Value W.Weight.kind (decoded W.Weight (lent_on desk.now)) ≡ None) (λ p. found self.new (lent_on desk.now) p × IsThere (step W.Weight.Value W.Weight.kind) (decoded W.Weight (lent_on desk.now))) };

    // Answers whether the words of the step fit. Where they do not, the sheet is as it was.
    fn make(&mut self, desk: &mut Desk<'_, W>, place: Self::Place) -> bool
        requires together { HoldsTogether W.Weight Working (lent_on desk.old) }
        requires found { found self.old (lent_on desk.old) place }
        ensures answer { StepAnswered W.Weight (step W.Weight.Value W.Weight.kind) (fits W.Weight.Value W.Weight.kind) (lent_on desk.old) (lent_on desk.new) result }
        ensures ready { result ≡ true → ready self.new (lent_on desk.new) }
        ensures loans { SameLoans desk.old desk.new };

    // A step keeps the meaning of the sheet.
    ghost keeps: { (room : Room) → KeepsMeaning W.Weight.kind (step W.Weight.Value W.Weight.kind) (fits W.Weight.Value W.Weight.kind room) };
}

// Makes at most `limit` steps. Done is tested first, then the limit, then the room.
pub fn repeat<W: Weight, T: Technique<W>>(
    technique: &mut T,
    desk: &mut Desk<'_, W>,
    limit: u64,
) -> Result<Report, Refusal>
    requires { T.ready technique.old (lent_on desk.old) }
    ensures answer { RunAnswered W.Weight (repeats (T.Technique.step W.Weight.Value W.Weight.kind) (T.Technique.fits W.Weight.Value W.Weight.kind)) limit (lent_on desk.old) (lent_on desk.new) result }
    ensures loans { SameLoans desk.old desk.new }
{
    holds_together(Phase::Working, desk.buffers())?;
    let mut steps = 0;
    while let Some(place) = technique.find(desk) {
        if steps == limit {
            let ending = Ending::Limit;
            return Ok(Report { steps, ending });
        }
        if !technique.make(desk, place) {
            let ending = Ending::Full;
            return Ok(Report { steps, ending });
        }
        steps += 1;
    }
    let ending = Ending::Done;
    Ok(Report { steps, ending })
}
