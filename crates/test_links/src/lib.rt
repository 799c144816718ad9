//! Tests of the calls on sources and links, by tables, of links over a real listener, and of a client's
//! links. The crate has no code of its own.
#![tactic(auto)]

#[cfg(test)]
mod client_ends;
#[cfg(test)]
mod clients;
#[cfg(test)]
mod gates;
#[cfg(test)]
mod lines;
#[cfg(test)]
mod link_calls;
#[cfg(test)]
mod links;
#[cfg(test)]
mod listener_ends;
#[cfg(test)]
mod listeners;
