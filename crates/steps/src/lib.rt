// The step of each rule on a decoded sheet, and that it keeps the meaning of a run.
#![tactic(auto)]

pub mod blocking;
pub mod covering;
pub mod elimination;
pub mod propagation;
pub mod strengthening;
pub mod subsumption;
