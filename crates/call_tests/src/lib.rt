//! Tests of public calls over samples: each is called with ample memory, and its answer compared.
#![tactic(auto)]

#[cfg(test)]
mod expansions;
#[cfg(test)]
mod journals;
#[cfg(test)]
mod kinds;
#[cfg(test)]
mod members;
#[cfg(test)]
mod names;
#[cfg(test)]
mod networks;
#[cfg(test)]
mod quotients;
#[cfg(test)]
mod roles;
#[cfg(test)]
mod shelves;
#[cfg(test)]
mod spec_texts;
#[cfg(test)]
mod structures;
#[cfg(test)]
mod synthesis;
#[cfg(test)]
mod systems;
#[cfg(test)]
mod table;
#[cfg(test)]
mod tableaus;
#[cfg(test)]
mod truth;
