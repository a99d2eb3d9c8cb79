// One morning at a garage: its bays, rules and wishes, two plans for it, and what a plan pays in each kind of weight.
#![tactic(auto)]

pub mod figures;
mod keeping;
pub mod kinds;
pub mod level;
#[cfg(test)]
mod tests;
pub mod weigh;
