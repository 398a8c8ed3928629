//! The rows of records, as a vault has them.
ghost use Rattle.std.specs.Prelude.{◌≡◌, ◌<◌};
ghost use Rattle.vault_core.specs.Vault.{record_at};
ghost use Rattle.vault_sql.specs.Calls.{Tells};
ghost use Rattle.sql_tables.specs.Transactions.{Between};

use sql_tables::fault::StoreFault;
use sqlite::{Alter, Connection};
use vault_core::name::Caller;
use vault_core::request::RequestNo;
use vault_core::row::Record;
use vault_tables::columns::caller_text;
use vault_tables::records;

/// What a caller's request was answered.
pub fn recorded<S: Alter>(
    conn: &mut Connection<S>,
    caller: &Caller,
    request: RequestNo,
) -> Result<Option<Record>, StoreFault>
    ensures { Between S.Store conn.old conn.new (Tells result
        (λ V found. found ≡ record_at V caller.now request)) }
{
    records::find(conn, caller_text(caller), request.get())
}
