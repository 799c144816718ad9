//! Tests of worlds, as recordings. The crate has no code of its own.
#![tactic(auto)]

#[cfg(test)]
mod completions;
#[cfg(test)]
mod conflicts;
#[cfg(test)]
mod connections;
#[cfg(test)]
mod copies;
#[cfg(test)]
mod marks;
#[cfg(test)]
mod played;
#[cfg(test)]
mod refusals;
#[cfg(test)]
mod typing;
#[cfg(test)]
mod versions;
#[cfg(test)]
mod views;
