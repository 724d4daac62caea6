//! Limits that no case reaches: terms of the greatest height, and calls of reduction that are open at once.
#![tactic(auto)]

#[cfg(test)]
mod tests;
