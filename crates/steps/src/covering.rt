// Subsumed label elimination (e). Where another live label stands in every clause with this one and weighs no more, nobody needs to pay this one:
// whoever pays it can pay the other instead, and each clause that it met is met by the other. So it leaves all clauses and is retired, unpaid.
// Nothing is recorded: an answer without it is an answer with it unpaid.
ghost use Rattle.std.specs.Prelude.{true};
ghost use Rattle.steps.specs.Covering.{covering};
ghost use Rattle.steps.specs.Keeping.{KeepsMeaning};

use weight::Weight;

// A step keeps the meaning, and the values of the plain items.
pub fn covering_keeps<W: Weight>() -> u8
    ensures { KeepsMeaning W.Weight.kind (covering W.Weight.kind) (λ t. true) }
{
    0
}
