//! Tests of shared terms: a pool of three nodes, regions, rows, and a term whose tree is larger than any memory.
#![tactic(auto)]

#[cfg(test)]
mod tests;
