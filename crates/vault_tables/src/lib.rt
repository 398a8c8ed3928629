//! The tables of a vault, one module each, and the versions of their schema.
#![tactic(auto)]

pub mod cards;
pub mod columns;
pub mod counts;
pub mod entries;
pub mod merchants;
pub mod records;
pub mod rights;
pub mod versions;
