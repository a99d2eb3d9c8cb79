// How clauses, items and reconstruction records lie in the lent buffers, and the refusals with their numbers.
#![tactic(auto)]

pub mod buffers;
pub mod clause;
pub mod clauses;
pub mod literal;
pub mod record;
pub mod records;
pub mod refusal;
pub mod row;
pub mod words;
