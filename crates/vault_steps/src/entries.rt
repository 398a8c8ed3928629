//! The entries that a step writes anew, in pieces.

use vault_core::name::MerchantId;
use vault_core::row::Entry;
use vault_pan::token::Token;

/// Entries, each with its merchant and its token. All entries of a file come in such pieces: the memory that
/// its opening left is free in pieces too, and one list of all would stand beside it.
pub type Piece = Vec<(MerchantId, Token, Entry)>;

/// How many entries a piece has at most.
pub const PIECE: usize = 500;
