//! Lists of dead tokens.
ghost use Rattle.std.specs.Prelude.{◌≡◌, IfOk, map, min};
ghost use Rattle.sqlite.specs.Order.{column};
ghost use Rattle.sqlite.specs.declared.types.Value.TheVariants.{Text};
ghost use Rattle.sql_tables.specs.Transactions.{Between};
ghost use Rattle.vault_core.specs.Window.{moment_at};
ghost use Rattle.vault_core.specs.declared.limit.TheConstants.{MOST_TOKENS};
ghost use Rattle.vault_sql.specs.Calls.{Tells};
ghost use Rattle.vault_sql.specs.DeadBefore.{first_dead};
ghost use Rattle.vault_sql.specs.Places.{IsPast};

use crate::entries::dead;
use crate::merchants::moment;
use crate::place::{Place, start_of};
use sql_tables::fault::StoreFault;
use sqlite::{Alter, Connection, Row};
use std::alloc::{AllocError, Global};
use vault_core::moment::Moment;
use vault_core::name::MerchantId;
use vault_pan::token::Token;
use vault_store::tables::TablesFault;
use vault_tables::columns::token_in;

/// The later one of a merchant's moment and `now`, and the rows of the first `limit` of its tokens that are
/// dead then, in order. They are no more than a merchant can have.
pub(crate) fn dead_from<S: Alter>(
    conn: &mut Connection<S>,
    place: &Option<Place>,
    m: &MerchantId,
    now: Moment,
    limit: usize,
) -> Result<(Moment, Vec<Row>), StoreFault>
    ensures { Between S.Store conn.old conn.new (Tells result
        (λ V found. IsPast place.now V → (found.0 ≡ moment_at V m.now now)
        × (found.1.items ≡ first_dead V m.now now (min MOST_TOKENS limit)))) }
{
    let at = moment(conn, m, now)?;
    let rows = dead(conn, m, at, start_of(place, m, at), limit)?;
    Ok((at, rows))
}

/// The tokens in the first column of these rows.
pub(crate) fn tokens_of(alloc: Global, rows: &[Row]) -> Result<Vec<Token>, TablesFault>
    ensures { IfOk result (λ tokens. map (λ row. column row 0) rows.now ≡ map Text tokens.items) }
{
    let mut tokens = Vec::new(alloc);
    for row in rows {
        let token = token_in(row, 0).map_err(|_| TablesFault::Store)?;
        if let Err(refused) = tokens.push(token) {
            return Err(AllocError::from(refused).into());
        }
    }
    Ok(tokens)
}
