//! The rules that the rows of a sound vault keep.
#![tactic(auto)]

pub mod card_rows;
pub mod entries;
pub mod index;
pub mod least;
mod packed;
pub mod records;
mod rising;
pub mod rows;
pub mod rules;
pub mod texts;
