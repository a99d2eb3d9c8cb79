// Whole numbers as weights. A number above the ceiling may come in; its sums are too large.
ghost use Rattle.std.specs.Prelude.{ℕ};
ghost use Rattle.weight.specs.Wholes.{wholes};
ghost use Rattle.std.proofs.Common.{rules};

use crate::kind::{TooLarge, Weight};

#[derive(Clone, Copy, Debug, PartialEq, Eq, PartialOrd, Ord)]
pub struct Whole {
    pub units: u64,
}

impl Whole {
    pub const CEILING: u64 = 1 << 62;
}

impl Weight for Whole {
    ghost Value = { ℕ };

    ghost kind = { wholes };

    ghost value = { λ w. w.units };

    ghost lawful = { Prim.search rules };

    fn zero() -> Whole {
        Whole { units: 0 }
    }

    fn plus(&self, other: &Whole) -> Result<Whole, TooLarge> {
        match self.units.checked_add(other.units) {
            Some(units) if units <= Whole::CEILING => Ok(Whole { units }),
            _ => Err(TooLarge),
        }
    }

    fn at_most(&self, other: &Whole) -> bool {
        self <= other
    }
}
