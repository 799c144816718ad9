//! Tests of serving rooms by workers, in threads of their own: servers and a crowd, which `test_with_servers` plays, and two clients
//! over a real listener, of which one plays a script. The crate has no code of its own.
#![tactic(auto)]

#[cfg(test)]
mod listener_ends;
#[cfg(test)]
mod listeners;
#[cfg(test)]
mod scripts;
#[cfg(test)]
mod servers;
