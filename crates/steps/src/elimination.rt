// Bounded variable elimination (v): a plain item goes, and its clauses with it, where their resolvents are no more than they are.
// A resolvent takes one clause with the item and one with its denial, and has all their other literals. It is sound both ways: values that meet both clauses
// meet their resolvent; and where all resolvents are met, the item can be no if the clauses with it are met without it, and else it can be yes.
// The clauses with the item are recorded, and unwinding makes it yes exactly where one of them is unmet.
// Every answer stays one and no label changes, so neither do costs nor the sets of labels that can be paid.
ghost use Rattle.steps.specs.Elimination.{elimination, first_to_go, elimination_fits};
ghost use Rattle.steps.specs.Keeping.{KeepsMeaning, KeepsPayable};
ghost use Rattle.steps.specs.Rooms.{Room};

use weight::Weight;

// Where its resolvents and records fit.
pub fn elimination_keeps<W: Weight>() -> u8
    ensures meaning { (room : Room) → KeepsMeaning W.Weight.kind elimination (λ t. elimination_fits room t (first_to_go t)) }
    ensures payable { (room : Room) → KeepsPayable W.Weight.kind elimination (λ t. elimination_fits room t (first_to_go t)) }
{
    0
}
