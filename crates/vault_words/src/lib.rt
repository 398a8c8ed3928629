//! The words of the program's command line, and the jobs that they ask for.
#![tactic(auto)]

mod args;
pub mod commands;
pub mod digits;
pub mod job;
pub mod jobs;
mod tree;
mod values;
mod why;
