// What a search writes down: the removals, the layout that is read from them, and the open splits.

#![tactic(auto)]

pub mod claims;
pub mod full;
pub mod layouts;
pub mod removal;
pub mod splits;
pub mod stack;
