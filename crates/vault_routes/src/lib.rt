//! What a message of the service asks for, and what its answer says.
#![tactic(auto)]

pub mod body;
pub mod fault;
pub mod reply;
pub mod route;
pub mod table;
pub mod wanted;
