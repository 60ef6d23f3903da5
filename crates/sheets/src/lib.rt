// What the steps do to the lent records of a worksheet, record by record.

#![tactic(auto)]

pub mod changing;
pub mod totals;
pub mod variables;
