// Reads listings: lines of comma-separated fields, each a command to a board.

#![tactic(auto)]

pub mod commands;
pub mod entries;
pub mod lines;
pub mod reader;
pub mod reading;
