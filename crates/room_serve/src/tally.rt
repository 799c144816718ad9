//! What the links of a worker came to.
use crate::report::Report;

/// What the links of a worker came to.
#[derive(Drop)]
pub struct Tally {
    /// What is told of each link, in the order in which they were served.
    pub reports: Vec<Report>,
    /// Whether the worker failed before no link was left.
    pub failed: bool,
}
