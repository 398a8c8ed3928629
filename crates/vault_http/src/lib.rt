//! The service: messages that a reader has, answered to a writer by a vault.
#![tactic(auto)]

pub mod fault;
pub mod laws;
pub mod serve;
pub mod served;
mod unit;
