// Answers as bytes: whether one meets the clauses, the plan that it unwinds to along the reconstruction stack, and what both cost.
#![tactic(auto)]

mod bytes;
mod clauses;
mod costs;
mod records;

pub use self::bytes::first_above_one;
pub use self::clauses::first_unmet;
pub use self::costs::{Bill, cost};
pub use self::records::unwind;
