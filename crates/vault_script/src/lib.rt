//! Commands, replies and faults, and steps over paths, as lines of words, so that a case of a test reads as
//! text: what is asked, ` = `, and the answer; readers, writers and tables that fail where a test wants it.
#![tactic(auto)]

pub mod case;
pub mod command;
pub mod fakes;
pub mod forty;
pub mod paths;
pub mod shops;
pub mod stuck;
pub mod told;
pub mod worked;
