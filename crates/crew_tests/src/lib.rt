//! Tests of crews: reports of one caller, and refusals; callers that meet in their gates and in their policy; many callers on a ring; where
//! the callers' words begin.
#![tactic(auto)]

#[cfg(test)]
mod crews;
#[cfg(test)]
mod many;
#[cfg(test)]
mod meeting;
#[cfg(test)]
mod rows;
