//! What a service did with a connection.

use vault_wire::fault::WireFault;

/// How a connection ended that was served to its end.
#[derive(Clone, Copy, PartialEq, Eq, Drop)]
pub struct Served {
    /// How many messages were answered.
    pub messages: u64,
    /// The fault of the bytes that was answered after them, if one was.
    pub fault: Option<WireFault>,
}
