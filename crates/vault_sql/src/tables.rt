//! Tables in a database.
ghost use Rattle.std.specs.Prelude.{◌≡◌, true, false, Err};

use crate::entries::{current, entry};
use crate::merchants::{all_merchants, how_many, merchant_and_rowid};
use crate::name_lists::names_in;
use crate::place::{Place, place_after, place_of};
use crate::records::recorded;
use crate::remembered::Remembered;
use crate::rights::{all_rights, right, rights_of};
use crate::tokens::{dead_from, tokens_of};
use crate::transaction::{are_storable, write};
use sqlite::{Alter, Connection};
use std::alloc::Global;
use vault_core::changes::Changes;
use vault_core::moment::Moment;
use vault_core::name::{Caller, MerchantId};
use vault_core::request::RequestNo;
use vault_core::right::Right;
use vault_core::row::{Entry, GrantRow, MerchantRow, Record};
use vault_pan::pan::Pan;
use vault_pan::token::Token;
use vault_store::tables::{RightRow, Tables, TablesFault};

/// Tables in a database, which fail from the first call on that the database refused. They remember where
/// the last list of dead tokens began, since the next one needs to look at none before; and the rows of
/// merchants and the rights that they read last, since nobody else writes the file.
pub struct SqlTables<S: Alter> {
    alloc: Global,
    conn: Connection<S>,
    failed: bool,
    place: Option<Place>,
    remembered: Remembered,
    ghost idle: { conn.in_transaction ≡ false },
}

impl<S: Alter> SqlTables<S> {
    ghost use Rattle.vault_sql.specs.Held.{AreFresh};

    /// Tables over a connection that is not inside a transaction. Nothing is promised of a database that
    /// holds no vault.
    pub fn on(alloc: Global, conn: Connection<S>) -> SqlTables<S>
        requires { conn.in_transaction ≡ false }
        ensures conn { result.conn ≡ conn }
        // no call of the tables has failed, they have no place, and they remember nothing
        ensures fresh { AreFresh result }
    {
        SqlTables {
            alloc,
            conn,
            failed: false,
            place: None,
            remembered: Remembered::new(),
        }
    }

    /// The connection.
    pub fn into_connection(self) -> Connection<S>
        ensures { result ≡ self.conn }
    {
        let SqlTables {
            alloc: _,
            conn,
            failed: _,
            place: _,
            remembered: _,
        } = self;
        conn
    }

    /// A call of the database failed, so all from now on is failed.
    fn fail<T>(&mut self) -> Result<T, TablesFault>
        // the fault is Store
        ensures told { result ≡ Err TablesFault.Store }
        // the tables have failed
        ensures failed { self.new.failed ≡ true }
        // the connection stays as it was
        ensures conn { self.new.conn ≡ self.old.conn }
    {
        self.failed = true;
        Err(TablesFault::Store)
    }
}

impl<S: Alter> Tables for SqlTables<S> {
    ghost use Rattle.std.specs.Prelude.{◌≡◌, true, false};
    ghost use Rattle.sqlite.specs.Held.{state};
    ghost use Rattle.sqlite.specs.State.{HasCleanDisk};
    ghost use Rattle.vault_schema.specs.Holds.{LeavesEither};
    ghost use Rattle.std.proofs.Common.{inl, inr};
    ghost use Rattle.vault_schema.specs.Left.{left_alone};
    ghost use Rattle.vault_sql.specs.Held.{AreHeld};

    ghost holds = { λ t V. AreHeld t V };

    ghost leaves = { λ t V W. LeavesEither (state S.Store t.conn) V W };

    ghost is_honest = { λ t. HasCleanDisk (state S.Store t.conn) };

    ghost may_refuse = { true };

    ghost may_fail = { true };

    ghost has_failed = { λ t. t.failed };

    ghost unfailed = { λ t V held. held.0 };

    ghost settled = { λ t V held honest. left_alone _ V (held.1 honest).0
        (λ db. S.Store.settled t.conn.store db (held.1 honest).0.is_open) };

    ghost widened = { λ t V W left db is. elim (left db is) [ inl held ↦ inl held | inr held ↦ inl held ] };

    fn failed(&self) -> bool {
        self.failed
    }

    #[tactic(auto, using(crate::proofs::Places::left_by, crate::proofs::Places::still_held))]
    fn merchant(&mut self, m: MerchantId) -> Result<Option<MerchantRow>, TablesFault> {
        if self.failed {
            return Err(TablesFault::Store);
        }
        if let Some(row) = self.remembered.merchant(&m) {
            return Ok(Some(row));
        }
        match merchant_and_rowid(&mut self.conn, &m) {
            Ok(found) => {
                self.remembered.keep_merchant(m, &found.0, found.1);
                Ok(found.0)
            }
            Err(_) => self.fail(),
        }
    }

    #[tactic(auto, using(crate::proofs::Places::left_by, crate::proofs::Places::still_held))]
    fn merchants(&mut self) -> Result<u64, TablesFault> {
        if self.failed {
            return Err(TablesFault::Store);
        }
        match how_many(&mut self.conn) {
            Ok(found) => Ok(found),
            Err(_) => self.fail(),
        }
    }

    #[tactic(auto, using(crate::proofs::Places::left_by, crate::proofs::Places::still_held))]
    fn right(
        &mut self,
        c: Caller,
        m: MerchantId,
        r: Right,
    ) -> Result<Option<GrantRow>, TablesFault> {
        if self.failed {
            return Err(TablesFault::Store);
        }
        if let Some(found) = self.remembered.right(&c, &m, r) {
            return Ok(found);
        }
        match right(&mut self.conn, &c, &m, r) {
            Ok(found) => {
                self.remembered.keep_right(c, m, r, &found);
                Ok(found)
            }
            Err(_) => self.fail(),
        }
    }

    #[tactic(auto, using(crate::proofs::Places::left_by, crate::proofs::Places::still_held))]
    fn recorded(&mut self, c: Caller, n: RequestNo) -> Result<Option<Record>, TablesFault> {
        if self.failed {
            return Err(TablesFault::Store);
        }
        match recorded(&mut self.conn, &c, n) {
            Ok(found) => Ok(found),
            Err(_) => self.fail(),
        }
    }

    #[tactic(auto, using(crate::proofs::Places::left_by, crate::proofs::Places::still_held))]
    fn entry(&mut self, m: MerchantId, t: Token) -> Result<Option<Entry>, TablesFault> {
        if self.failed {
            return Err(TablesFault::Store);
        }
        match entry(&mut self.conn, &m, &t) {
            Ok(found) => Ok(found),
            Err(_) => self.fail(),
        }
    }

    #[tactic(auto, using(crate::proofs::Places::left_by, crate::proofs::Places::still_held))]
    fn current(&mut self, m: MerchantId, p: Pan, at: Moment) -> Result<Option<Token>, TablesFault> {
        if self.failed {
            return Err(TablesFault::Store);
        }
        match current(&mut self.conn, &m, &p, at) {
            Ok(found) => Ok(found),
            Err(_) => self.fail(),
        }
    }

    #[tactic(auto, using(crate::proofs::Places::left_by, crate::proofs::Places::still_held))]
    fn dead(
        &mut self,
        m: MerchantId,
        now: Moment,
        limit: usize,
    ) -> Result<Vec<Token>, TablesFault> {
        if self.failed {
            return Err(TablesFault::Store);
        }
        match dead_from(&mut self.conn, &self.place, &m, now, limit) {
            Ok(found) => match tokens_of(self.alloc, &found.1) {
                Ok(tokens) => {
                    self.place = place_of(m, found.0, &tokens);
                    Ok(tokens)
                }
                Err(TablesFault::Memory) => Err(TablesFault::Memory),
                Err(TablesFault::Store) => self.fail(),
            },
            Err(_) => self.fail(),
        }
    }

    #[tactic(auto, using(crate::proofs::Places::left_by, crate::proofs::Places::still_held))]
    fn names(&mut self) -> Result<Vec<MerchantId>, TablesFault> {
        if self.failed {
            return Err(TablesFault::Store);
        }
        match all_merchants(&mut self.conn) {
            Ok(rows) => match names_in(self.alloc, &rows) {
                Ok(names) => Ok(names),
                Err(TablesFault::Memory) => Err(TablesFault::Memory),
                Err(TablesFault::Store) => self.fail(),
            },
            Err(_) => self.fail(),
        }
    }

    #[tactic(auto, using(crate::proofs::Places::left_by, crate::proofs::Places::still_held))]
    fn rights(&mut self) -> Result<Vec<RightRow>, TablesFault> {
        if self.failed {
            return Err(TablesFault::Store);
        }
        match all_rights(&mut self.conn) {
            Ok(rows) => match rights_of(self.alloc, &rows) {
                Ok(found) => Ok(found),
                Err(TablesFault::Memory) => Err(TablesFault::Memory),
                Err(TablesFault::Store) => self.fail(),
            },
            Err(_) => self.fail(),
        }
    }

    fn write(&mut self, ch: &Changes) -> Result<(), TablesFault> {
        if self.failed {
            return Err(TablesFault::Store);
        }
        if !are_storable(ch) {
            return self.fail();
        }
        let known = self.remembered.before(&ch.lives);
        match write(&mut self.conn, ch, &known) {
            Ok(()) => {
                self.place = place_after(&self.place, ch);
                self.remembered.change(ch);
                Ok(())
            }
            Err(_) => self.fail(),
        }
    }
}
