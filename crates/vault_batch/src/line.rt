//! The line that answers a row.
ghost use Rattle.std.specs.Prelude.{◌≡◌, IfOk};
ghost use Rattle.vault_batch.specs.Lines.{has_token as has_token_lem, line_of};

use std::alloc::{AllocError, Global};
use vault_core::reply::Reply;

/// The line of a row that was replied to.
pub(crate) fn line(alloc: Global, request: &[u8], reply: &Reply) -> Result<Vec<u8>, AllocError>
    ensures { IfOk result (λ out. out.items ≡ line_of request.now reply.now) }
{
    let mut line = Vec::from_slice(alloc, request)?;
    match reply {
        Reply::Token { token, expires } => {
            line.push(b',')?;
            line.extend_from_slice(token.digits())?;
            let expires = format!(in alloc; ",{expires}\n")?;
            line.extend_from_slice(expires.as_bytes())?;
        }
        Reply::Refused(number) => {
            let refused = format!(in alloc; ",refused,{number}\n")?;
            line.extend_from_slice(refused.as_bytes())?;
        }
        _ => line.extend_from_slice(b",\n")?,
    }
    Ok(line)
}

/// Whether the reply has a token.
pub(crate) fn has_token(reply: &Reply) -> bool
    ensures { result ≡ has_token_lem reply.now }
{
    matches!(reply, Reply::Token { .. })
}
