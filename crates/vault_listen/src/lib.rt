//! A vault that is served over connections, one connection after the other.
#![tactic(auto)]

pub mod elapsed;
pub mod fault;
pub mod limits;
pub mod linger;
pub mod live;
pub mod network;
pub mod peer;
pub mod peers;
pub mod service;
pub mod stream;
pub mod tcp;
pub mod time;
