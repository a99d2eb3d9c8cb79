// A kind of weight: what any kind offers, and the laws that each kind owes.
ghost use Rattle.std.specs.Prelude.{◌≡◌};
ghost use Rattle.weight.specs.Kind.{Kind, Lawful, ExactOrTooLarge};

use std::error::Error;
use std::fmt;

// The exact sum passes the ceiling of its kind.
#[derive(Clone, Copy, Debug, PartialEq, Eq)]
pub struct TooLarge;

impl fmt::Display for TooLarge {
    ghost use Rattle.std.specs.Prelude.{Some, codes};

    ghost output = { λ _. Some (codes "a total passes the ceiling of its kind") };

    fn fmt<W: fmt::Write>(&self, f: &mut fmt::Formatter<W>) -> fmt::Result {
        f.write_str("a total passes the ceiling of its kind")
    }
}

impl Error for TooLarge {}

// A weight is a plain value. All that is asked of its kind goes by what the weights mean: `Ord` would ask that equal meanings be equal values.
pub trait Weight: Copy {
    // The values that weights of this kind mean.
    ghost Value: { Type 0 };

    // Zero, sum, order and ceiling of those values.
    ghost kind: { Kind Value };

    // What a weight means.
    ghost value: { Self → Value };

    fn zero() -> Self
        ensures { value result ≡ kind.zero };

    fn plus(&self, other: &Self) -> Result<Self, TooLarge>
        ensures { ExactOrTooLarge kind value (kind.sum (value self.now) (value other.now)) result };

    fn at_most(&self, other: &Self) -> bool
        ensures { result ≡ kind.at_most (value self.now) (value other.now) };

    ghost lawful: { Lawful kind };
}
