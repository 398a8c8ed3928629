//! A batch: rows of card numbers that a reader has, answered to a writer by a vault.
#![tactic(auto)]

pub mod asker;
pub mod batch;
mod csv_records;
pub mod fault;
pub mod laws;
mod line;
mod row;
pub mod row_counts;
mod unit;
