//! The rights file: a TOML document that names the rights of callers at merchants.
//!
//! It has a table for each caller, and in it a key for each merchant with an array of rights: words, or
//! tables of a word and an end.
#![tactic(auto)]

pub mod fault;
mod items;
pub mod read;
