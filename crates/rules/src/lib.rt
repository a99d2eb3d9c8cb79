// What a rule is, and rules made of rules.
#![tactic(auto)]

pub mod pile;
pub mod rule;
pub mod technique;
