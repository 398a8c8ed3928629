//! The versions of a vault's schema, and what their rows stand for.
#![tactic(auto)]

pub mod rows;
pub mod version;
