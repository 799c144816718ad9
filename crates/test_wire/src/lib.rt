//! Tests of the calls on the text of messages. The crate has no code of its own.
#![tactic(auto)]

#[cfg(test)]
mod clients;
#[cfg(test)]
mod joins;
#[cfg(test)]
mod pieces;
#[cfg(test)]
mod refusals;
#[cfg(test)]
mod rooms;
#[cfg(test)]
mod tables;
#[cfg(test)]
mod waits;
