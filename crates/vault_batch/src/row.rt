//! One row: its three fields, and what it asks for.
ghost use Rattle.std.specs.Prelude.{◌≡◌, ◌≢◌, ◌↔◌, IsTrue, IfOk, IfSome, length, IfNone};
ghost use Rattle.csv.specs.Records.{fields_of};
ghost use Rattle.vault_batch.specs.Asking.{Wants};
ghost use Rattle.vault_engine.specs.Asking.{AreProper};
ghost use Rattle.vault_batch.specs.Rows.{fields_in, header, row_of};

use crate::asker::Asker;
use csv::ByteRecord;
use vault_core::command::Command;
use vault_core::moment::Moment;
use vault_core::request::RequestNo;
use vault_core::usage::Use;
use vault_pan::draw::Digits;
use vault_pan::pan::Pan;
use vault_refusal::refusal::Refusal;

/// A row: the texts of its three fields.
#[derive(Clone, Copy)]
pub(crate) struct Row<'a> {
    pub(crate) request: &'a [u8],
    pub(crate) number: &'a [u8],
    pub(crate) usage: &'a [u8],
}

impl<'a> Row<'a> {
    /// The row of a record, which has three fields.
    pub(crate) fn of(fields: &'a ByteRecord) -> Option<Row<'a>>
        // the row has the fields of the record
        ensures some { IfSome result (λ row. fields_of fields.now ≡ fields_in (row_of row)) }
        // where there is none, the record hasn't three fields
        ensures none { IfNone result (length (fields_of fields.now) ≢ 3) }
    {
        if fields.len() != 3 {
            return None;
        }
        Some(Row {
            request: fields.get(0)?,
            number: fields.get(1)?,
            usage: fields.get(2)?,
        })
    }

    /// What the row asks for, at a moment and with drawn digits.
    ///
    /// Refusals, the first that applies: 5 BadRequestNumber, 1 BadNumber, 2 BadCheck, 19 BadUse.
    pub(crate) fn command(
        self,
        asker: Asker,
        now: Moment,
        digits: Digits,
    ) -> Result<Command, Refusal>
        // it is what the row asks for: a command, or the first refusal that applies
        ensures wanted { Wants asker (row_of self.entry) (now, digits) result }
        // the lives that its command sets, if any, are in range
        ensures proper { AreProper result }
    {
        let request = RequestNo::read(self.request)?;
        let pan = Pan::read(self.number)?;
        let usage = Use::read(self.usage)?;
        Ok(Command::Tokenize {
            caller: asker.caller,
            merchant: asker.merchant,
            request,
            usage,
            pan,
            digits,
            now,
        })
    }
}

/// Whether a record is the header.
pub(crate) fn is_header(fields: &ByteRecord) -> bool
    ensures { IsTrue result ↔ (fields_of fields.now ≡ fields_in header) }
{
    match Row::of(fields) {
        Some(row) => {
            row.request == b"request".as_slice()
                && row.number == b"number".as_slice()
                && row.usage == b"use".as_slice()
        }
        None => false,
    }
}
