//! Tests of `write_big`: the rows, and a large load twice.
#![tactic(auto)]

#[cfg(test)]
mod rows;
