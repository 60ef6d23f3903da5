// Score kinds: what a score is, and the kinds that are delivered.

#![tactic(auto)]

pub mod choice;
pub mod claims;
pub mod interface;
pub mod margins;
#[cfg(test)]
mod tests;
pub mod tiers;
pub mod totals;
pub mod values;
