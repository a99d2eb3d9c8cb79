// Rules made of rules, which they hold by value: one after another, and one in rounds.
ghost use Rattle.std.specs.Prelude.{◌≡◌, ◌+◌, ◌^◌, ◌<◌, ◌==◌};
ghost use Rattle.meaning.specs.Steps.{Then, Repeated, is_going_on};

use crate::rule::Rule;
use checking::holds_together;
use meaning::report::{Ending, Report};
use sheet::buffers::{Desk, Phase};
use sheet::refusal::Refusal;
use weight::Weight;

// The first rule, and then the second with what is left of the limit, if the first ended done or rounds.
#[derive(Clone, Copy)]
pub struct Sequence<A, B> {
    pub first: A,
    pub second: B,
}

// Whether what follows is run.
fn goes_on(ending: Ending) -> bool
    ensures { result ≡ is_going_on ending }
{
    match ending {
        Ending::Done | Ending::Rounds => true,
        Ending::Limit | Ending::Full => false,
    }
}

// Whether no step was made.
fn is_idle(report: Report) -> bool
    ensures { result ≡ (report.steps == 0) }
{
    report.steps == 0
}

// What two runs come to, one after the other.
fn together(first: Report, second: Report) -> Report
    requires { first.steps + second.steps < 2 ^ 64 }
    ensures { result ≡ record { steps = first.steps + second.steps; ending = second.ending } }
{
    Report {
        steps: first.steps + second.steps,
        ending: second.ending,
    }
}

impl<W: Weight, A: Rule<W>, B: Rule<W>> Rule<W> for Sequence<A, B> {
    ghost runs = { λ r V k room. Then (A.Rule.runs r.first V k room) (B.Rule.runs r.second V k room) };

    fn run(&self, desk: &mut Desk<'_, W>, limit: u64) -> Result<Report, Refusal> {
        let first = self.first.run(desk, limit)?;
        if !goes_on(first.ending) {
            return Ok(first);
        }
        let left = limit - first.steps;
        let second = self.second.run(desk, left)?;
        Ok(together(first, second))
    }
}

// A rule in at most so many rounds, each with what is left of the limit. Limit or full ends it, else a round without a step.
#[derive(Clone, Copy)]
pub struct Repetition<R> {
    pub rule: R,
    pub rounds: u64,
}

impl<W: Weight, R: Rule<W>> Rule<W> for Repetition<R> {
    ghost runs = { λ r V k room. Repeated (R.Rule.runs r.rule V k room) r.rounds };

    fn run(&self, desk: &mut Desk<'_, W>, limit: u64) -> Result<Report, Refusal> {
        // no round may be asked for, and bad buffers are refused all the same
        holds_together(Phase::Working, desk.buffers())?;
        let mut made = 0;
        for round in 0..self.rounds {
            let one = self.rule.run(desk, limit - made)?;
            if !goes_on(one.ending) {
                return Ok(Report {
                    steps: made + one.steps,
                    ending: one.ending,
                });
            }
            if is_idle(one) {
                return Ok(Report {
                    steps: made,
                    ending: Ending::Done,
                });
            }
            made += one.steps;
        }
        Ok(Report {
            steps: made,
            ending: Ending::Rounds,
        })
    }
}
