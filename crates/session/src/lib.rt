// Gathering clauses into lent buffers, closing them into a working sheet, and unwinding a solver's answers to it.
#![tactic(auto)]

pub mod claim;
pub mod delivered;
pub mod gathering;
pub mod working;
