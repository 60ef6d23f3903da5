// Worksheets over lent records: their removals, the counts of partners, and their bounds.

#![tactic(auto)]

pub mod bounds;
pub mod claims;
pub mod degrees;
pub mod removals;
