// The board: variables and pairs of variables with their scores, pins, and a history that takes changes back.

#![tactic(auto)]

pub mod boards;
