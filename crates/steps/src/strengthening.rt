// Self-subsuming resolution (r), also called strengthening: a literal leaves a clause where another clause has its denial and otherwise only literals of the first.
// It is sound since the shortened clause is the resolvent of the two: values that meet both meet it, and it has only literals of the clause that it replaces.
// So the answers stay exactly the same, and with them every cost and every set of labels that can be paid.
ghost use Rattle.std.specs.Prelude.{true};
ghost use Rattle.steps.specs.Strengthening.{strengthening};
ghost use Rattle.steps.specs.Keeping.{KeepsMeaning, KeepsPayable};

use weight::Weight;

pub fn strengthening_keeps<W: Weight>() -> u8
    ensures meaning { KeepsMeaning W.Weight.kind strengthening (λ t. true) }
    ensures payable { KeepsPayable W.Weight.kind strengthening (λ t. true) }
{
    0
}
