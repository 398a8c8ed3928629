//! What the rules need of records, which come one after the other.
ghost use Rattle.std.specs.Prelude.{◌≡◌, ◌+◌, ◌<◌, ◌^◌, [], OnOk};
ghost use Rattle.vault_rules.specs.NextRow.{TakesOneMore};

use crate::entries::Entries;
use crate::index::counted::one_more;
use crate::rising::Rising;
use crate::rows::RawRecord;
use crate::rules::callers::is_record;
use std::alloc::AllocError;

/// The records that came behind all entries, as far as the rules need them: none of their rows is kept.
#[derive(Drop)]
pub struct Records<'a> {
    pub(crate) entries: Entries<'a>,
    many: usize,
    rowids: Rising,
    /// Rule 11: each record is of a caller with a name, of a request from 1 on, and of an entry that exists
    /// and has the record's usage.
    pub(crate) kept: bool,
}

impl<'a> Records<'a> {
    ghost use Rattle.vault_rules.specs.Seen.{HasRecords};

    /// None came yet.
    pub fn new(entries: Entries<'a>) -> Records<'a>
        // it has the entries that are handed in
        ensures entries { result.entries ≡ entries.entry }
        // no record came
        ensures none { HasRecords result [] }
    {
        Records {
            entries,
            many: 0,
            rowids: Rising::new(),
            kept: true,
        }
    }

    /// Takes the next record. Only memory can fail.
    pub fn take(&mut self, row: &RawRecord) -> Result<(), AllocError>
        // the entries stay as they were
        ensures entries { self.new.entries ≡ self.old.entries }
        // with Ok, one more came
        ensures counted { OnOk result (self.new.many ≡ self.old.many + 1) }
        // with Ok, fewer than 2^64 came
        ensures few { OnOk result (self.new.many < 2 ^ 64) }
        // with Ok, those before and this one came
        ensures taken { OnOk result (TakesOneMore HasRecords self.old self.new row.now) }
    {
        self.many = one_more(self.many)?;
        self.rowids.take(row.rowid);
        self.kept = self.kept && is_record(&self.entries, row);
        Ok(())
    }

    /// The entries that they came behind.
    pub fn entries(&self) -> &Entries<'a>
        ensures { result.now ≡ self.now.entries }
    {
        &self.entries
    }

    /// How many came.
    pub fn many(&self) -> usize
        ensures { result ≡ self.now.many }
    {
        self.many
    }

    /// Their rowids.
    pub fn rowids(&self) -> &Rising
        ensures { result.now ≡ self.now.rowids }
    {
        &self.rowids
    }
}
