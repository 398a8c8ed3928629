//! A vault's file moves from an older schema to the newest one.
#![tactic(auto)]

pub mod laws;
pub mod migrate;
mod movable;
pub mod open;
mod typed;
