//! A row as one thing that is asked.

use crate::asker::Asker;
use crate::line::line;
use crate::row::Row;
use std::alloc::{AllocError, Global};
use vault_core::command::Command;
use vault_core::moment::Moment;
use vault_core::reply::Reply;
use vault_engine::unit::Unit;
use vault_pan::draw::Digits;
use vault_refusal::refusal::Refusal;

/// A row, and who asks by it.
#[derive(Clone, Copy)]
pub(crate) struct AskedRow<'a> {
    pub(crate) row: Row<'a>,
    pub(crate) asker: Asker,
}

impl<'a> Unit for AskedRow<'a> {
    ghost use Rattle.vault_batch.specs.Asking.{Wants, answer_line};
    ghost use Rattle.vault_batch.specs.Rows.{Row, row_of};

    ghost Shown = { Row };

    ghost shown = { λ asked. row_of asked.row };

    ghost wants = { λ asked. Wants asked.asker };

    ghost text = { answer_line };

    fn command(
        &self,
        _alloc: Global,
        now: Moment,
        digits: Digits,
    ) -> Result<Result<Command, Refusal>, AllocError> {
        Ok(self.row.command(self.asker, now, digits))
    }

    fn replied(&self, alloc: Global, r: &Reply) -> Result<Vec<u8>, AllocError> {
        line(alloc, self.row.request, r)
    }

    fn refused(&self, alloc: Global, refusal: Refusal) -> Result<Vec<u8>, AllocError> {
        let reply = Reply::Refused(refusal.number());
        if refusal == Refusal::BadRequestNumber {
            line(alloc, b"0", &reply)
        } else {
            line(alloc, self.row.request, &reply)
        }
    }
}
