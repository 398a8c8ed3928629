//! The tables of a vault in SQLite: opened, read, and changed in one transaction for each command.
#![tactic(auto)]

mod entries;
mod merchants;
mod name_lists;
pub mod place;
mod records;
pub mod remembered;
mod rights;
pub mod tables;
mod tokens;
mod transaction;
