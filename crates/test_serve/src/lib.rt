//! Tests of serving a link, by tables that `test_with_served` plays. The crate has no code of its own.
#![tactic(auto)]

#[cfg(test)]
mod failing;
#[cfg(test)]
mod hostile;
#[cfg(test)]
mod replies;
