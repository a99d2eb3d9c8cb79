// How figures are written.
ghost use Rattle.std.specs.Prelude.{◌≡◌};
ghost use Rattle.std.specs.Float.Ieee.{to_unsigned};

use std::fmt;
use std::fmt::InlineText;
use std::num::saturating_f32_to_u64;

// The text of a figure, held in place, so that a column can be laid out. Two of the longest numbers fit.
pub type Text = InlineText<80>;

// A whole number with its digits in groups of three.
#[derive(Clone, Copy)]
pub struct Grouped(pub u64);

impl Grouped {
    // No `From`: a fraction is dropped, and the largest number stands for all beyond it.
    pub fn from_single(figure: f32) -> Grouped
        ensures { result.0 ≡ to_unsigned 64 figure }
    {
        Grouped(saturating_f32_to_u64(figure))
    }
}

// The groups in front first, then the last one, behind a comma.
fn write_groups<W: fmt::Write>(n: u64, f: &mut fmt::Formatter<W>) -> fmt::Result {
    if n < 1000 {
        write!(f, "{n}")
    } else {
        write_groups(n / 1000, f)?;
        write!(f, ",{:03}", n % 1000)
    }
}

impl fmt::Display for Grouped {
    fn fmt<W: fmt::Write>(&self, f: &mut fmt::Formatter<W>) -> fmt::Result {
        write_groups(self.0, f)
    }
}
