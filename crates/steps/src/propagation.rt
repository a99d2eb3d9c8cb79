// Unit propagation (u). A clause of one literal leaves no choice: in every answer that literal is true.
// So the clauses that have it are met and go, its denial can meet no clause and leaves the others, and its item is settled.
// The clause is recorded, and unwinding makes the literal true again. A label that is settled is forced: it was paid in every answer, and is charged always.
ghost use Rattle.steps.specs.Keeping.{KeepsMeaning};
ghost use Rattle.steps.specs.Propagation.{first_unit, propagation, unit_fits};
ghost use Rattle.steps.specs.Rooms.{Room};

use weight::Weight;

// Where its record fits, a step keeps the meaning, and the values of the plain items still live.
pub fn propagation_keeps<W: Weight>() -> u8
    ensures { (room : Room) → KeepsMeaning W.Weight.kind propagation (λ t. unit_fits room t (first_unit t.clauses)) }
{
    0
}
