// Whether a plan keeps a wish.
ghost use Rattle.std.specs.Prelude.{◌≡◌};
ghost use Rattle.garage.specs.Keeping.{parked, agreed, kept};

use crate::level::{Plan, Wish};

impl Plan {
    // Whether an item is true. One that the garage does not have is not.
    fn parks(&self, item: u32) -> bool
        ensures { result ≡ parked self.now.bays item }
    {
        let Some(place) = item.checked_sub(1) else {
            return false;
        };
        self.bays.get(place as usize / 4) == Some(&(place % 4 + 1))
    }

    // A literal may be any number: its sign is taken off where even the least one fits.
    fn agrees(&self, literal: i32) -> bool
        ensures { result ≡ agreed self.now.bays literal }
    {
        let parks = self.parks(literal.unsigned_abs());
        if literal < 0 { !parks } else { parks }
    }

    pub fn keeps(&self, wish: &Wish) -> bool
        ensures { result ≡ kept self.now.bays wish.now.literals.now }
    {
        wish.literals.iter().any(|literal| self.agrees(*literal))
    }
}
