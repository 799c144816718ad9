//! Tests of the store on signals with its views, queries and indices, as scripts. The crate has no code of its own.
#![tactic(auto)]

#[cfg(test)]
mod alike;
#[cfg(test)]
mod drawn;
#[cfg(test)]
mod indices;
#[cfg(test)]
mod levels;
#[cfg(test)]
mod played;
#[cfg(test)]
mod queries;
#[cfg(test)]
mod transactions;
#[cfg(test)]
mod views;
#[cfg(test)]
mod watches;
