// Subsumption. A clause that has all the literals of another is met wherever that other is, so it says nothing of its own and goes; of two
// equal clauses the later goes. Answers stay what they were, so nothing is recorded.
#![tactic(auto)]

ghost use Rattle.std.specs.Prelude.{◌≡◌, ◌≤◌, true, length, take};
ghost use Rattle.meaning.specs.Steps.{outcome, repeated_step};
ghost use Rattle.sheet.specs.Clauses.{Laid, Valid, clauses};
ghost use Rattle.sheet.specs.Literals.{Rising};
ghost use Rattle.sheet.specs.Views.{clause_seen};
ghost use Rattle.sheet.specs.declared.clause.Tag.TheVariants.{Working};
ghost use Rattle.std.specs.List.{AllByRecursion};
ghost use Rattle.steps.specs.Places.{some};
ghost use Rattle.steps.specs.Rewriting.{inside};
ghost use Rattle.steps.specs.Subsumption.{SubsumptionRuns, is_subsumed, subsumed_once};
ghost use Rattle.subsumption.specs.Sides.{subsumes as subsumes_by};

use checking::holds_together;
use meaning::report::{Ending, Report};
use rules::rule::Rule;
use sheet::buffers::{Desk, Phase};
use sheet::clause::{Place, read};
use sheet::clauses::{ClauseRef, Clauses};
use sheet::refusal::Refusal;
use sheet::words::slide;
use std::cmp::Ordering;
use weight::Weight;

// Where the other clause stands: of equal clauses the later goes. An enum and no closure: a contract names by it what is asked.
#[derive(Clone, Copy)]
pub enum Side {
    Before,
    Behind,
}

// Whether each literal of `sub` is one of `sup`: one pass over both, since they ascend.
fn is_inside(sub: &[u16], sup: &[u16]) -> bool
    requires sub { Rising sub.now }
    requires sup { Rising sup.now }
    ensures { result ≡ inside sub.now sup.now }
{
    let mut left = sub;
    for w in sup {
        let Some((first, rest)) = left.split_first() else {
            return true;
        };
        match first.cmp(w) {
            Ordering::Less => return false,
            Ordering::Equal => left = rest,
            Ordering::Greater => {}
        }
    }
    left.is_empty()
}

// Whether a clause, standing on that side, subsumes one with `lits`.
fn subsumes(side: Side, lits: &[u16], clause: ClauseRef<'_>) -> bool
    requires lits { Rising lits.now }
    requires clause { Rising clause.lits.now }
    ensures { result ≡ subsumes_by side lits.now (clause_seen clause.entry) }
{
    match side {
        Side::Before => is_inside(clause.lits, lits),
        Side::Behind => is_inside(clause.lits, lits) && !is_inside(lits, clause.lits),
    }
}

// Whether one of the clauses, standing on that side, subsumes `lits`.
fn some_subsumes(side: Side, lits: &[u16], clauses: &Clauses<'_>) -> bool
    requires lits { Rising lits.now }
    requires valid { AllByRecursion Valid clauses.now }
    ensures { result ≡ some (subsumes_by side lits.now) clauses.now }
{
    clauses.iter().any(|clause| subsumes(side, lits, clause))
}

// Whether a clause with these literals is subsumed by one of those before it or of those behind it.
fn is_subsumed(lits: &[u16], before: &Clauses<'_>, behind: &Clauses<'_>) -> bool
    requires lits { Rising lits.now }
    requires before { AllByRecursion Valid before.now }
    requires behind { AllByRecursion Valid behind.now }
    ensures { result ≡ is_subsumed before.now (record { tag = Working; lits = lits.now }) behind.now }
{
    some_subsumes(Side::Before, lits, before) || some_subsumes(Side::Behind, lits, behind)
}

// Removes the first subsumed clause as often as the limit lets it, in one pass: a removal makes no other clause subsumed. Answers where
// the words end then as well.
fn remove_subsumed(sheet: &mut [u16], fill: usize, limit: u64) -> (usize, Report)
    requires fits { fill ≤ length sheet.old }
    requires laid { Laid (take fill sheet.old) }
    ensures shrinks { result.0 ≤ fill }
    ensures laid { Laid (take result.0 sheet.new) }
    ensures exact { outcome result.1.steps result.1.ending (clauses (take result.0 sheet.new)) ≡ repeated_step subsumed_once (λ cs. true) limit (clauses (take fill sheet.old)) }
{
    // up to `out` lies what is kept of the clauses before `at`
    let mut out = 0;
    let mut at = 0;
    let mut steps = 0;
    // a cursor, since the words change under it
    while at < fill {
        let Place { from, to, end, .. } = read(sheet, fill, at);
        let seen = &sheet[..];
        let before = Clauses::of(&seen[..out]);
        let behind = Clauses::of(&seen[end..fill]);
        if !is_subsumed(&seen[from..to], &before, &behind) {
            out = slide(sheet, out, at, end);
        } else if steps == limit {
            let ending = Ending::Limit;
            return (slide(sheet, out, at, fill), Report { steps, ending });
        } else {
            steps += 1;
        }
        at = end;
    }
    let ending = Ending::Done;
    (out, Report { steps, ending })
}

#[derive(Clone, Copy)]
pub struct Subsumption {}

impl<W: Weight> Rule<W> for Subsumption {
    ghost runs = { λ r V k room. SubsumptionRuns };

    fn run(&self, desk: &mut Desk<'_, W>, limit: u64) -> Result<Report, Refusal> {
        holds_together(Phase::Working, desk.buffers())?;
        let fill = desk.marks.sheet;
        let (fill, report) = remove_subsumed(desk.sheet, fill, limit);
        desk.marks.sheet = fill;
        Ok(report)
    }
}
