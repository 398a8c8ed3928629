//! Tables that hold a vault, and the vault over them.
#![tactic(auto)]

pub mod listing;
pub mod memory;
pub mod merchant_names;
pub mod right_rows;
pub mod tables;
pub mod vault;
pub mod window;
