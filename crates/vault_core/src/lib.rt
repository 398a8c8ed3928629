//! The commands of a vault, and what each answers and changes.
#![tactic(auto)]

pub mod changes;
pub mod command;
pub mod decide;
pub mod laws;
pub mod limit;
pub mod moment;
pub mod name;
pub mod parts;
pub mod reply;
pub mod request;
pub mod right;
pub mod row;
pub mod source;
pub mod usage;
pub mod window;
