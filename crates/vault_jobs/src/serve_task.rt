//! A service that a task asks for.
use crate::lists::Lists;

/// A service that a task asks for: its port, after how many connections it ends, and the lists that it
/// follows.
#[derive(Drop)]
pub struct ServeTask {
    pub port: u16,
    pub connections: u64,
    pub lists: Lists,
}
