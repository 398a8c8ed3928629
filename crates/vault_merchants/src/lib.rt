//! A list of merchants: a TOML document that has a table for each merchant, with its lives and its lead.
#![tactic(auto)]

pub mod fault;
pub mod read;
mod table;
