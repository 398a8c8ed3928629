//! Why a message gives no command.

/// The refusal by which a message is answered that gives no command: 56 to 59, and those of its texts. 64
/// says that memory was refused, whatever the message is.
pub use vault_refusal::refusal::Refusal as HttpFault;
