// How literals are written.
use std::fmt;

// Literals as they are sent.
#[derive(Clone, Copy)]
pub struct Sent(pub &'static [i32]);

impl fmt::Display for Sent {
    fn fmt<W: fmt::Write>(&self, f: &mut fmt::Formatter<W>) -> fmt::Result {
        for (i, literal) in self.0.iter().enumerate() {
            if i > 0 {
                f.write_str(" ")?;
            }
            write!(f, "{literal}")?;
        }
        Ok(())
    }
}
