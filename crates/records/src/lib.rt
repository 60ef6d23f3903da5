// The records that boards and worksheets are lent, and reading and writing them.

#![tactic(auto)]

pub mod access;
pub mod history;
pub mod pairs;
pub mod variables;
