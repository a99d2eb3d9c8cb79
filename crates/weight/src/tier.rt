// A whole number above a weight of any kind. Tiers of tiers are tiers too.
ghost use Rattle.std.specs.Prelude.{ℕ};
ghost use Rattle.weight.specs.Tiers.{tiers};
ghost use Rattle.weight.specs.TierLaws.{tiers_lawful};

use crate::kind::{TooLarge, Weight};
use crate::whole::Whole;

#[derive(Clone, Copy, Debug, PartialEq, Eq)]
pub struct Tier<L> {
    pub above: Whole,
    pub below: L,
}

impl<L: Weight> Weight for Tier<L> {
    ghost Value = { ℕ × L.Weight.Value };

    ghost kind = { tiers L.Weight.kind };

    ghost value = { λ t. (t.above.units, L.Weight.value t.below) };

    ghost lawful = { tiers_lawful L.Weight.lawful };

    fn zero() -> Tier<L> {
        Tier {
            above: Whole::zero(),
            below: L::zero(),
        }
    }

    fn plus(&self, other: &Tier<L>) -> Result<Tier<L>, TooLarge> {
        let above = self.above.plus(&other.above)?;
        let below = self.below.plus(&other.below)?;
        Ok(Tier { above, below })
    }

    fn at_most(&self, other: &Tier<L>) -> bool {
        self.above < other.above || self.above == other.above && self.below.at_most(&other.below)
    }
}
