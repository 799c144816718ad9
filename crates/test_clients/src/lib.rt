//! Tests of clients, as scripts of calls over a store that counts its writes, and of peers. The crate has no code of its own.
#![tactic(auto)]

#[cfg(test)]
mod calls;
#[cfg(test)]
mod client;
#[cfg(test)]
mod messages;
#[cfg(test)]
mod peers;
#[cfg(test)]
mod scripts;
#[cfg(test)]
mod writes;
