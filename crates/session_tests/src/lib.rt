// The calls of a session, tested over small lent buffers. What is expected comes from docs/CALLS.md, docs/LAYOUT.md and docs/REFUSALS.md.
#![tactic(auto)]

#[cfg(test)]
mod add;
#[cfg(test)]
mod calls;
#[cfg(test)]
mod close;
#[cfg(test)]
mod damage;
#[cfg(test)]
mod limits;
#[cfg(test)]
mod open;
#[cfg(test)]
mod run;
#[cfg(test)]
mod shrink;
#[cfg(test)]
mod unwind;
