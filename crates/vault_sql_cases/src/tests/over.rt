//! What is done with a connection, and what it tells.
ghost use Rattle.std.specs.Prelude.{◌≡◌, false, None};

use super::sent::{rows_sent, stream_sent};
use sqlite::{Alter, Connection, Error};
use std::alloc::Global;
use vault_migrate::migrate::{migrate, migrate_all};
use vault_migrate::open::open;
use vault_script::case::wrong;
use vault_script::told::text;
use vault_store::tables::Tables;
use vault_store::vault::Vault;
use vault_verdict::check::check;
use vault_verdict::fault::OpenFault;

/// What is done with the files of a database.
#[derive(Clone, Copy)]
pub enum Step<'a> {
    /// Statements of SQL are run: `changed`, or `not changed`.
    Change(&'a str),
    /// The files are checked: `sound` and the sizes, or how they are refused.
    Check,
    /// Lines are asked of the vault that is opened: `answered`, how it is refused, or the first line that is
    /// answered otherwise.
    Ask(&'a str),
    /// The forty requests are sent to the vault that is opened: what went out, or how it is refused.
    Stream,
    /// A batch of three rows is sent to it, with the same.
    Rows,
    /// The files move to the newest schema: `schema` and its version, or how they are refused.
    Migrate,
    /// They move one version up, and tell the same.
    Up,
    /// The number that a query shows, or `none`.
    Number(&'a str),
    /// The rows of a sound vault are counted: its entries, its records and the tokens made.
    Count,
}

/// Runs statements of SQL.
pub fn changed<S: Alter>(alloc: Global, conn: &mut Connection<S>, sql: &str) -> String {
    match conn.execute_batch(sql) {
        Ok(()) => text(alloc, "changed"),
        Err(_) => text(alloc, "not changed"),
    }
}

/// A refusal in words: its number and, after a space, the version or the rule.
fn refusal(alloc: Global, fault: OpenFault) -> String {
    let number = fault.refusal().number();
    let told = match fault {
        OpenFault::WrongSchema(version) => format!(in alloc; "{number} {version}"),
        OpenFault::Damaged(rule) => format!(in alloc; "{number} {rule}"),
        OpenFault::Memory | OpenFault::Store => format!(in alloc; "{number}"),
    };
    told.unwrap_or(String::new(alloc))
}

/// What the check says: the sizes of a sound vault, or how it refuses.
fn checked<S: Alter>(alloc: Global, conn: &mut Connection<S>) -> String {
    match check(alloc, conn) {
        Ok(sizes) => {
            let (merchants, entries, records) = (sizes.merchants, sizes.entries, sizes.records);
            let told = format!(in alloc; "sound {merchants} {entries} {records}");
            told.unwrap_or(String::new(alloc))
        }
        Err(fault) => refusal(alloc, fault),
    }
}

/// The number that a query shows.
fn number<S: Alter>(conn: &mut Connection<S>, sql: &str) -> Result<i64, Error> {
    conn.query_row(sql, &[])?.get(0)
}

/// What a migration says: the version that stands then, or how it refuses.
fn moved(alloc: Global, outcome: Result<i64, OpenFault>) -> String {
    match outcome {
        Ok(version) => {
            let told = format!(in alloc; "schema {version}");
            told.unwrap_or(String::new(alloc))
        }
        Err(fault) => refusal(alloc, fault),
    }
}

/// The number that a query shows, in words.
fn shown<S: Alter>(alloc: Global, conn: &mut Connection<S>, sql: &str) -> String {
    match number(conn, sql) {
        Ok(number) => {
            let told = format!(in alloc; "{number}");
            told.unwrap_or(String::new(alloc))
        }
        Err(_) => text(alloc, "none"),
    }
}

/// How many entries and records there are, and how many merchants with one token made.
const COUNTED: [&str; 3] = [
    "SELECT count(*) FROM entries2",
    "SELECT count(*) FROM records",
    "SELECT count(*) FROM counts WHERE kind = 1 AND total = 1",
];

/// These numbers in words, each before a space, where the check finds a sound vault.
fn counted<S: Alter>(alloc: Global, conn: &mut Connection<S>) -> String {
    if check(alloc, conn).is_err() {
        return text(alloc, "refused");
    }
    let mut told = String::new(alloc);
    for sql in COUNTED {
        let _ = told.push_str(shown(alloc, conn, sql).as_str());
        let _ = told.push(' ');
    }
    told
}

/// What a vault is asked.
#[derive(Clone, Copy)]
enum Question<'a> {
    Lines(&'a str),
    Stream,
    Rows,
}

/// What a vault tells to a question.
fn answered<T: Tables>(alloc: Global, vault: &mut Vault<T>, question: Question<'_>) -> String {
    match question {
        Question::Lines(lines) => wrong(alloc, vault, lines),
        Question::Stream => stream_sent(alloc, vault),
        Question::Rows => rows_sent(alloc, vault),
    }
}

/// Asks the vault that a connection opens, and gives the connection again.
fn asked<S: Alter + Drop>(
    alloc: Global,
    conn: Connection<S>,
    question: Question<'_>,
) -> (String, Connection<S>)
    requires idle { conn.in_transaction ≡ false }
    requires unlimited { conn.step_limit ≡ None }
{
    match open(alloc, conn) {
        Ok(mut vault) => {
            let told = answered(alloc, &mut vault, question);
            (told, vault.into_tables().into_connection())
        }
        Err((fault, conn)) => (refusal(alloc, fault), conn),
    }
}

/// Does a step over a connection, and gives the connection again.
pub fn done_over<S: Alter + Drop>(
    alloc: Global,
    conn: Connection<S>,
    step: Step<'_>,
) -> (String, Connection<S>)
    requires idle { conn.in_transaction ≡ false }
    requires unlimited { conn.step_limit ≡ None }
{
    let mut conn = conn;
    let told = match step {
        Step::Change(sql) => changed(alloc, &mut conn, sql),
        Step::Check => checked(alloc, &mut conn),
        Step::Migrate => moved(alloc, migrate_all(alloc, &mut conn)),
        Step::Up => moved(alloc, migrate(alloc, &mut conn)),
        Step::Number(sql) => shown(alloc, &mut conn, sql),
        Step::Count => counted(alloc, &mut conn),
        Step::Ask(lines) => return asked(alloc, conn, Question::Lines(lines)),
        Step::Stream => return asked(alloc, conn, Question::Stream),
        Step::Rows => return asked(alloc, conn, Question::Rows),
    };
    (told, conn)
}
