// What answers, plans and their costs are, what a run of a rule means, and that the sheets which calls reach are faithful to the accepted clauses.
#![tactic(auto)]

ghost use Rattle.meaning.specs.LeastCosts.{CallsStayFaithful};

use weight::Weight;

pub mod report;

// For every kind of weight and every list of calls: every answer unwinds to a plan no dearer, every plan has an answer no dearer,
// least costs agree, and unwinding pays no more than the answer costs.
pub fn calls_stay_faithful<W: Weight>() -> u8
    ensures { CallsStayFaithful W.Weight.kind }
{
    0
}
