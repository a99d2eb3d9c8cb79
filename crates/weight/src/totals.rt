// The exact total of a lent slice, one text for every kind of weight.
ghost use Rattle.weight.specs.Kind.{ExactOrTooLarge};
ghost use Rattle.weight.specs.Total.{total_in};

use crate::kind::{TooLarge, Weight};

#[tactic(auto, using(crate::proofs::Folding::so_far_past))]
pub fn total<W: Weight>(weights: &[W]) -> Result<W, TooLarge>
    ensures { ExactOrTooLarge W.Weight.kind W.Weight.value (total_in W.Weight weights.now) result }
{
    let mut sum = W::zero();
    for w in weights {
        sum = sum.plus(w)?;
    }
    Ok(sum)
}
