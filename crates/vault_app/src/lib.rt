//! What the program `vault` does with its words, but for what the process gives it.
#![tactic(auto)]

mod asker;
mod commands;
mod conclusion;
pub mod desk;
pub mod ending;
mod line;
pub mod note;
mod on_file;
pub mod placeholder;
pub mod plan;
mod report;
pub mod run;
mod typed;
