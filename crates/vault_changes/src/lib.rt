//! Commands carried out in their order, and those that make a vault's rights and merchants a list's.
#![tactic(auto)]

pub mod carry;
pub mod change;
pub mod changes;
pub mod laws;
mod merchant_keys;
pub mod moments;
pub mod purges;
mod right_keys;
pub mod settings;
pub mod settle;
