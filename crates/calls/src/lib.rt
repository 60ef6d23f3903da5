// The calls that a board answers, and what they mean: the list of standing changes.

#![tactic(auto)]

pub mod answers;
pub mod changes;
pub mod claims;
pub mod entries;
pub mod questions;
pub mod refusals;
