// Blocked clause elimination (b): a clause goes if one of its plain literals, the witness, is denied only by clauses that also deny another plain literal of it.
// It is sound since an answer of the rest that leaves the clause unmet makes all its literals false: each clause that denies the witness is then met by
// another denial, so the witness can be made true. The clause is recorded, and unwinding does just that.
// Every answer stays one and no label changes, so neither do costs nor the sets of labels that can be paid.
ghost use Rattle.steps.specs.Blocking.{blocking, first_blocked, block_fits};
ghost use Rattle.steps.specs.Keeping.{KeepsMeaning, KeepsPayable};
ghost use Rattle.steps.specs.Rooms.{Room};

use weight::Weight;

// Where its record fits.
pub fn blocking_keeps<W: Weight>() -> u8
    ensures meaning { (room : Room) → KeepsMeaning W.Weight.kind blocking (λ t. block_fits room t (first_blocked t)) }
    ensures payable { (room : Room) → KeepsPayable W.Weight.kind blocking (λ t. block_fits room t (first_blocked t)) }
{
    0
}
