//! Tests of the top call where a file or the output fails, which the rows of data cannot show.
#![tactic(auto)]

#[cfg(test)]
mod commands;
