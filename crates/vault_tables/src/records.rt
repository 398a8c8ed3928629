//! The table of records: what a caller's request was answered.
ghost use Rattle.vault_tables.specs.Taken.{RecordsTaken};
ghost use Rattle.sql_tables.specs.Transactions.{Between, Inside};
ghost use Rattle.vault_tables.specs.Calls.{TellsTables, Makes};
ghost use Rattle.std.specs.Prelude.{◌≡◌, ◌<◌, ◌^◌, Some, refl};
ghost use Rattle.vault_core.specs.Keys.{record_cmp};
ghost use Rattle.sql_tables.specs.Rows.{put};
ghost use Rattle.vault_schema.specs.Versions.{newest};
ghost use Rattle.vault_tables.specs.RecordTexts.{record_values, record_scan};

use crate::columns::{merchant_in, merchant_text, token_in, usage_in};
use sql_tables::columns::Columns;
use sql_tables::fault::StoreFault;
use sql_tables::keyed::{self, Finds, Stored};
use sql_tables::raws::Raw;
use sql_tables::run::step;
use sql_tables::shapes::ColumnShape::Present;
use sql_tables::shapes::{IndexShape, TableShape};
use sql_tables::taken::Taker;
use sql_tables::whole::Whole;
use sqlite::{Alter, Connection, Error, Row, Transaction, params};
use sqlite_schema::schema::Kind::{Integer, Text};
use std::alloc::AllocError;
use vault_core::name::Caller;
use vault_core::request::RequestNo;
use vault_core::row::Record;
use vault_rules::records::Records as Taken;
use vault_rules::rows::RawRecord;

/// Makes the table of records.
pub const CREATE_RECORDS: &str = "\
    CREATE TABLE records (caller TEXT NOT NULL, request INTEGER NOT NULL, \
    merchant TEXT NOT NULL, token TEXT NOT NULL, usage INTEGER NOT NULL, \
    PRIMARY KEY (caller, request)) STRICT";

/// Records by caller and request.
pub(crate) const RECORDS_SHAPE: TableShape<'static> = TableShape {
    name: "records",
    tree: 8,
    columns: &[
        Present("caller", Text),
        Present("request", Integer),
        Present("merchant", Text),
        Present("token", Text),
        Present("usage", Integer),
    ],
    rowid: None,
    primary: &[1, 2],
    uniques: &[&[1, 2]],
};

/// The key of records.
pub(crate) const RECORDS_KEY: IndexShape<'static> = IndexShape {
    name: "sqlite_autoindex_records_1",
    tree: 9,
    table: 8,
    columns: &[1, 2],
    is_unique: true,
};

/// What a caller's request was answered.
pub const FIND_RECORD: &str =
    "SELECT merchant, token, usage FROM records WHERE caller = ?1 AND request = ?2";

/// Writes a new record.
pub const ADD_RECORD: &str = "INSERT INTO records VALUES (?1, ?2, ?3, ?4, ?5)";

/// The whole of `records`, by its rowid.
pub const READ_RECORDS: &str =
    "SELECT rowid, caller, request, merchant, token, usage FROM records ORDER BY rowid";

/// The table.
pub struct Records;

impl Raw for Records {
    type Of = RawRecord;

    ghost values = { record_values };

    fn read(row: &Row) -> Result<RawRecord, StoreFault> {
        let mut columns = Columns::of(row);
        let raw = RawRecord {
            rowid: columns.next()?,
            caller: columns.next()?,
            request: columns.next()?,
            merchant: columns.next()?,
            token: columns.next()?,
            usage: columns.next()?,
        };
        columns.end()?;
        Ok(raw)
    }
}

impl Whole for Records {
    type Raw = Records;

    ghost scan = { record_scan };

    fn text() -> &'static str {
        READ_RECORDS
    }

    ghost read_so = { refl };
}

impl Stored for Records {
    ghost use Rattle.std.specs.Prelude.{refl};
    ghost use Rattle.vault_core.specs.Keys.{record_cmp};
    ghost use Rattle.vault_schema.proofs.Newest.{record_table};
    ghost use Rattle.vault_schema.specs.Records.{record_columns};
    ghost use Rattle.vault_schema.specs.Schema.{newest_schema};
    ghost use Rattle.vault_schema.specs.Stands.{newest_claims};
    ghost use Rattle.vault_schema.specs.Values.{numbered_key};
    ghost use Rattle.vault_schema.specs.Versions.{Tables};

    type Key = (Caller, RequestNo);

    type Value = Record;

    ghost schema = { newest_schema };

    ghost Tables = { Tables };

    ghost claims = { newest_claims };

    ghost cmp = { record_cmp };

    ghost key = { numbered_key };

    ghost value = { record_columns };

    ghost at = { record_table };

    ghost held = { λ t. t.records };

    ghost with = { λ t now. record t { records = now } };

    ghost plain = { refl };

    ghost said = { λ t rows are. are };

    ghost set = { λ t now db all. all };
}

impl Finds for Records {
    ghost use Rattle.vault_schema.proofs.RecordCodes.{record_told};
    ghost use Rattle.vault_tables.specs.RecordTexts.{record_is};
    ghost use Rattle.vault_schema.specs.Records.{ShowsRecord};
    ghost use Rattle.vault_tables.specs.declared.records.TheConstants.{FIND_RECORD};

    ghost found_by = { FIND_RECORD.now };

    ghost shows = { ShowsRecord };

    fn find_text() -> &'static str {
        FIND_RECORD
    }

    fn value_of(row: &Row) -> Result<Record, StoreFault> {
        let merchant = merchant_in(row, 0)?;
        let token = token_in(row, 1)?;
        let usage = usage_in(row, 2)?;
        Ok(Record {
            merchant,
            token,
            usage,
        })
    }

    ghost finding_is = { record_is };

    ghost told = { record_told };
}

/// What a caller's request was answered.
pub fn find<S: Alter>(
    conn: &mut Connection<S>,
    caller: &str,
    request: u64,
) -> Result<Option<Record>, StoreFault>
    requires { request < 2 ^ 63 }
    ensures { Between S.Store conn.old conn.new (TellsTables result
        (λ t found. found ≡ t.records (caller.now, request))) }
{
    keyed::find::<S, Records>(conn, params![caller, request as i64])
}

/// Writes a record, which isn't there yet: one that is there makes it fail.
pub fn add_record<S: Alter>(
    tx: &mut Transaction<'_, S>,
    caller: &str,
    request: u64,
    answered: &Record,
) -> Result<(), Error>
    requires { request < 2 ^ 63 }
    ensures { Inside S.Store tx.old tx.new (Makes newest result
        (λ _. Unit {0})
        (λ h. record h { records = put record_cmp h.records (caller.now, request) (Some answered.now) })) }
{
    let m = merchant_text(&answered.merchant);
    let token = answered.token.as_str();
    let usage = answered.usage.number();
    step(
        tx,
        ADD_RECORD,
        params![caller, request as i64, m, token, usage as i64],
    )
}

impl<'a> Taker<Records> for Taken<'a> {
    ghost use Rattle.std.specs.Prelude.{◌-◌, ◌^◌, refl};

    ghost took = { RecordsTaken };

    ghost fresh = { λ start none. (refl, none) };

    ghost room = { λ now. 2 ^ 64 - now.many };

    fn take(&mut self, raw: RawRecord) -> Result<(), AllocError> {
        Taken::take(self, &raw)
    }
}
