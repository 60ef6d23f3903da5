// Boards worked at their limits.

#![tactic(auto)]

#[cfg(test)]
mod tests;
