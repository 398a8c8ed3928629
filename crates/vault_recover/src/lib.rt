//! Files of a vault are opened, and opened again after a stop.
#![tactic(auto)]

mod cached;
pub mod laws;
pub mod options;
pub mod reopen;
pub mod unopened;
