//! The rows of a vault's file are read and judged whole.
#![tactic(auto)]

mod apart;
mod behind;
pub mod check;
pub mod fault;
mod first_rows;
pub mod judge;
mod made;
pub mod owners;
pub mod sizes;
pub mod verdict;
pub mod version;
pub mod whole_tables;
