//! The refusals of the whole product: their numbers, statuses and words.

#![tactic(auto)]

pub mod refusal;
