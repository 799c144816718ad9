//! Tests of the calls of a room, as scripts. The crate has no code of its own.
#![tactic(auto)]

#[cfg(test)]
mod limits;
#[cfg(test)]
mod loads;
#[cfg(test)]
mod played;
#[cfg(test)]
mod refusals;
#[cfg(test)]
mod saves;
#[cfg(test)]
mod updates;
