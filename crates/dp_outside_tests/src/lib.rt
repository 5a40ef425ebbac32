//! Tests of the outside in memory and of the adapters. A crate with tests is proved twice, so they stand apart.
#![tactic(auto)]

#[cfg(test)]
mod tests;
