// Weights of wishes: what a kind of weight is, two kinds, and the exact total of a lent slice.
#![tactic(auto)]

mod kind;
mod tier;
mod totals;
mod whole;

pub use self::kind::{TooLarge, Weight};
pub use self::tier::Tier;
pub use self::totals::total;
pub use self::whole::Whole;

#[cfg(test)]
mod tests;
