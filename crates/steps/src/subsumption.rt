// Subsumption (s): of two clauses, one with all the literals of the other, the longer goes; of equal clauses the later.
// It is sound since values that make a literal of the shorter clause true make that literal of the longer one true.
// So the answers stay exactly the same, and with them every cost and every set of labels that can be paid.
ghost use Rattle.std.specs.Prelude.{true};
ghost use Rattle.steps.specs.Subsumption.{subsumption};
ghost use Rattle.steps.specs.Keeping.{KeepsMeaning, KeepsPayable};

use weight::Weight;

pub fn subsumption_keeps<W: Weight>() -> u8
    ensures meaning { KeepsMeaning W.Weight.kind subsumption (λ t. true) }
    ensures payable { KeepsPayable W.Weight.kind subsumption (λ t. true) }
{
    0
}
