//! The values by which views and queries are written.
//!
//! A view is `{"box":ID}`, `{"tree":ID}`, `{"bound":ID}` or `{"count":ID}`. A query is
//! `["eq",FIELD,VALUE]`, `["neq",FIELD,VALUE]`, `["gt",FIELD,NUMBER]`, `["and",[..]]`,
//! `["or",[..]]` or `["not",QUERY]`.
//!
//! Contracts see a value as `rooms_val` has it, and views and queries as `shape_tree` does. The
//! crate stands on these two. What stands for what is said in the direction of writing: `view_data`
//! is the one value of a view, `query_data` that of a query.
#![tactic(auto)]

pub mod laws;
mod parts;
pub mod queries;
pub mod views;

pub use queries::{query_val, read_query};
pub use views::{read_view, view_val};
