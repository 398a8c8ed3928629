//! The vault in the file at a path.
#![tactic(auto)]

pub mod check;
pub mod fault;
pub mod host;
pub mod migrate;
pub mod open;
pub mod paths;
pub mod reopen;
