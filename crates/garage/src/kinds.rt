// The two kinds of weight that the program works with, and what it asks of a kind besides its sums and its order.
ghost use Rattle.std.specs.Prelude.{◌≡◌, Float};
ghost use Rattle.garage.specs.declared.level.Wish.{Wish};
ghost use Rattle.garage.specs.Kinds.{Rest, in_points, in_tiers, nearest, scaled};

use crate::figures::{Grouped, Text};
use crate::level::Wish;
use std::num::nearest_u64_to_f32;
use weight::{Tier, Weight, Whole};

// What the old routine counted one above as.
const ONE_ABOVE: u64 = 16_777_216;

pub trait Weighting: Weight {
    // What a wish weighs.
    ghost given: { Wish → Self };

    // What single precision makes of one weight.
    ghost rounded: { Self → Float };

    const EXPLAINED: &'static str;

    fn of(wish: &Wish) -> Self
        ensures { result ≡ given wish.now };

    fn single(&self) -> f32
        ensures { result ≡ rounded self.now };

    // What is left once `other` is taken off, and `None` where that cannot be done.
    fn without(&self, other: &Self) -> Option<Self>
        ensures { Rest Self.Weight.kind Self.Weight.value (Self.Weight.value self.now) (Self.Weight.value other.now) result };

    // No `Display`: weights are another crate's, and know no grouping of digits.
    fn text(&self) -> Text;
}

impl Weighting for Whole {
    ghost given = { in_points };

    ghost rounded = { λ w. nearest w.units };

    const EXPLAINED: &'static str =
        "Weighed in points: a wish has a number of points, and a plan pays their sum.";

    fn of(wish: &Wish) -> Whole {
        Whole { units: wish.points }
    }

    fn single(&self) -> f32 {
        nearest_u64_to_f32(self.units)
    }

    fn without(&self, other: &Whole) -> Option<Whole> {
        let units = self.units.checked_sub(other.units)?;
        Some(Whole { units })
    }

    fn text(&self) -> Text {
        Text::of(Grouped(self.units))
    }
}

impl Weighting for Tier<Whole> {
    ghost given = { in_tiers };

    ghost rounded = { λ t. scaled t.above.units t.below.units };

    const EXPLAINED: &'static str =
        "Weighed in two tiers: a contract counts above, an ordinary wish below, and above decides first.\nSingle precision has no tiers: the old routine counted one above as 16,777,216, and added.";

    fn of(wish: &Wish) -> Tier<Whole> {
        Tier {
            above: Whole { units: wish.above },
            below: Whole { units: wish.below },
        }
    }

    fn single(&self) -> f32 {
        self.above.single() * nearest_u64_to_f32(ONE_ABOVE) + self.below.single()
    }

    fn without(&self, other: &Tier<Whole>) -> Option<Tier<Whole>> {
        let above = self.above.without(&other.above)?;
        let below = self.below.without(&other.below)?;
        Some(Tier { above, below })
    }

    fn text(&self) -> Text {
        let above = Grouped(self.above.units);
        let below = Grouped(self.below.units);
        Text::of(format_args!("{above} above, {below} below"))
    }
}
