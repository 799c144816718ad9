//! Tests of the calls of the value layer, as tables. The crate has no code of its own.
#![tactic(auto)]

#[cfg(test)]
mod calls;
#[cfg(test)]
mod keys;
#[cfg(test)]
mod played;
#[cfg(test)]
mod scripts;
#[cfg(test)]
mod values;
