// The rules and their piles, tested on small sheets written by hand. What is expected comes from docs/RULES.md and docs/LAYOUT.md.
#![tactic(auto)]

#[cfg(test)]
mod blocked_clauses;
#[cfg(test)]
mod covered_labels;
#[cfg(test)]
mod desk;
#[cfg(test)]
mod eliminated_items;
#[cfg(test)]
mod piles;
#[cfg(test)]
mod resolved_literals;
#[cfg(test)]
mod subsumed_clauses;
#[cfg(test)]
mod units;
