// The fields of a listing: where a text is cut, the numbers, letters and words that a field can hold, and the faults.

#![tactic(auto)]

pub mod cutting;
pub mod faults;
pub mod parts;
pub mod words;
