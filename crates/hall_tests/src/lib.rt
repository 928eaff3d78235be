//! Tests of the hall: what callers are told step by step, with the report; a caller inside another's gate; callers on real threads.
#![tactic(auto)]

#[cfg(test)]
mod acts;
#[cfg(test)]
mod closes;
#[cfg(test)]
mod gates;
#[cfg(test)]
mod halls;
#[cfg(test)]
mod packing;
#[cfg(test)]
mod rows;
#[cfg(test)]
mod threads;
