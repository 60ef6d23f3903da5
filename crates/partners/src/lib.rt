// The partners of a worksheet's variables, read off the pairs.

#![tactic(auto)]

pub mod links;
pub mod tallies;
