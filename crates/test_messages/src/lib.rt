//! Tests of the calls on messages. The crate has no code of its own.
#![tactic(auto)]

#[cfg(test)]
mod made;
#[cfg(test)]
mod messages;
#[cfg(test)]
mod printed;
#[cfg(test)]
mod recordings;
#[cfg(test)]
mod tables;
#[cfg(test)]
mod views;
