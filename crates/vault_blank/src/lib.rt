//! A new file: an empty database of one small page, whole or not there at all. And the log beside a file.
#![tactic(auto)]

pub mod lock;
pub mod log;
pub mod make;
mod names_beside;
pub mod page;
