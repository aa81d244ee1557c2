//! The tables of a new book.
ghost use Rattle.std.specs.Prelude.{◌≡◌, ◌≤◌, ℕ, ◌+◌, ◌-◌, [], ◌∷◌, ◌++◌, replicate, false, IsTrue, OnOk, IfErr};
ghost use Rattle.sqlite.specs.Effect.{Database};
ghost use Rattle.rtgs_book.specs.Books.{new_book};
ghost use Rattle.rtgs_rows.specs.Rows.{choice_row};
ghost use Rattle.rtgs_rows.specs.Tables.{resolution_table, table_count};
ghost use Rattle.rtgs_rows.specs.Content.{Tables, Holds, IsUnderWay, Rests, rows_in};
ghost use Rattle.rtgs_rows.specs.Keeping.{first_content};
ghost use Rattle.rtgs_sql_writes.specs.Stops.{IsBefore};
ghost use Rattle.rtgs_sql_columns.specs.Blank.{IsBlank};
ghost use Rattle.rtgs_sql_writes.specs.Building.{IsBuilt, MakesTable, with_rows, all_but_the_first};
ghost use Rattle.sqlite.specs.State.{HasCleanDisk, KeepsCommit, Survives};
ghost use Rattle.sqlite.specs.Held.{state};

use crate::staging::Stopped;
use rtgs_rows::numbers::VERSION;
use rtgs_sql_columns::columns::number_value;
use sqlite::{Alter, Connection, Error, Transaction};

/// The day.
const DESK: &str =
    "CREATE TABLE desk (id INTEGER PRIMARY KEY, version INTEGER NOT NULL, date TEXT, \
     phase INTEGER NOT NULL) STRICT";

/// The participants, with their stored balances.
const PARTICIPANT: &str =
    "CREATE TABLE participant (code TEXT PRIMARY KEY NOT NULL, name TEXT NOT NULL, key BLOB NOT NULL UNIQUE, \
     credit INTEGER NOT NULL, balance INTEGER NOT NULL) STRICT";

/// The postings.
const POSTING: &str =
    "CREATE TABLE posting (number INTEGER PRIMARY KEY, code TEXT NOT NULL, reference TEXT NOT NULL UNIQUE, \
     cents INTEGER NOT NULL, date TEXT) STRICT";

/// The orders.
const PAYMENT: &str =
    "CREATE TABLE payment (number INTEGER PRIMARY KEY, sender TEXT NOT NULL, reference TEXT NOT NULL, \
     receiver TEXT NOT NULL, amount INTEGER NOT NULL, date TEXT NOT NULL, state INTEGER NOT NULL, mark INTEGER, \
     UNIQUE (sender, reference)) STRICT";

/// What each settlement settled.
const MARK: &str =
    "CREATE TABLE mark (number INTEGER PRIMARY KEY, date TEXT NOT NULL, many INTEGER NOT NULL, \
     value INTEGER NOT NULL) STRICT";

/// The due dates of orders for a later date.
const FORWARD: &str = "CREATE TABLE forward (number INTEGER PRIMARY KEY, due TEXT NOT NULL) STRICT";

/// Whether the day is automatic.
const RESOLUTION: &str =
    "CREATE TABLE resolution (id INTEGER PRIMARY KEY, automatic INTEGER NOT NULL) STRICT";

/// The names of the tables, in their order. Each version after the first adds one.
pub(crate) const NAMES: [&str; 7] = [
    "desk",
    "participant",
    "posting",
    "payment",
    "mark",
    "forward",
    "resolution",
];

/// The texts that make them, in the same order.
const TABLES: [&str; 7] = [
    DESK,
    PARTICIPANT,
    POSTING,
    PAYMENT,
    MARK,
    FORWARD,
    RESOLUTION,
];

/// The one row of the first table of a new desk.
const FIRST_DAY: &str = "INSERT INTO desk (id, version, phase) VALUES (1, ?1, 0)";

/// The one row of the last.
const FIRST_CHOICE: &str = "INSERT INTO resolution (id, automatic) VALUES (1, 0)";

/// Makes one more table.
fn create_table<S: Alter>(tx: &mut Transaction<'_, S>, text: &str) -> Result<usize, Error>
    ensures same_reference { tx.new.conn.ghost_name ≡ tx.old.conn.ghost_name }
    ensures made { HasCleanDisk (state S.Store tx.new.conn.now) → (was : Database) (at : ℕ) (rows : Tables)
        → IsBuilt was at rows (state S.Store tx.old.conn.now) → MakesTable at text.now
        → OnOk result (IsBuilt was (at + 1) (rows ++ [] ∷ []) (state S.Store tx.new.conn.now)) }
    ensures kept { HasCleanDisk (state S.Store tx.new.conn.now)
        → KeepsCommit (state S.Store tx.old.conn.now) (state S.Store tx.new.conn.now) }
    ensures survives { Survives (state S.Store tx.old.conn.now) (state S.Store tx.new.conn.now) (λ _. ⊥) }
{
    tx.execute(text, &[])
}

/// Makes the tables from this place on, which are empty.
pub(crate) fn create_from<S: Alter>(tx: &mut Transaction<'_, S>, from: usize) -> Result<(), Error>
    requires { from ≤ table_count VERSION }
    ensures same_reference { tx.new.conn.ghost_name ≡ tx.old.conn.ghost_name }
    ensures made { HasCleanDisk (state S.Store tx.new.conn.now) → (was : Database) (rows : Tables)
        → IsBuilt was from rows (state S.Store tx.old.conn.now)
        → OnOk result (IsBuilt was (table_count VERSION) (rows ++ replicate (table_count VERSION - from) [])
        (state S.Store tx.new.conn.now)) }
    ensures kept { HasCleanDisk (state S.Store tx.new.conn.now)
        → KeepsCommit (state S.Store tx.old.conn.now) (state S.Store tx.new.conn.now) }
    ensures survives { Survives (state S.Store tx.old.conn.now) (state S.Store tx.new.conn.now) (λ _. ⊥) }
{
    for at in from..TABLES.len() {
        create_table(tx, TABLES[at])?;
    }
    Ok(())
}

/// The one row of the table `resolution`: no day is automatic.
pub(crate) fn first_choice<S: Alter>(tx: &mut Transaction<'_, S>) -> Result<usize, Error>
    ensures same_reference { tx.new.conn.ghost_name ≡ tx.old.conn.ghost_name }
    ensures made { HasCleanDisk (state S.Store tx.new.conn.now) → (was : Database) (rows : Tables)
        → rows_in resolution_table rows ≡ [] → IsBuilt was (table_count VERSION) rows (state S.Store tx.old.conn.now)
        → OnOk result (IsBuilt was (table_count VERSION)
        (with_rows resolution_table (choice_row new_book.day ∷ []) rows) (state S.Store tx.new.conn.now)) }
    ensures kept { HasCleanDisk (state S.Store tx.new.conn.now)
        → KeepsCommit (state S.Store tx.old.conn.now) (state S.Store tx.new.conn.now) }
    ensures survives { Survives (state S.Store tx.old.conn.now) (state S.Store tx.new.conn.now) (λ _. ⊥) }
{
    tx.execute(FIRST_CHOICE, &[])
}

/// The one row of the table `desk`: no day was opened.
fn first_day<S: Alter>(tx: &mut Transaction<'_, S>) -> Result<usize, Error>
    ensures same_reference { tx.new.conn.ghost_name ≡ tx.old.conn.ghost_name }
    ensures made { HasCleanDisk (state S.Store tx.new.conn.now) → (was : Database)
        → IsBuilt was (table_count VERSION) all_but_the_first (state S.Store tx.old.conn.now)
        → OnOk result (IsUnderWay was first_content (state S.Store tx.new.conn.now)) }
    ensures kept { HasCleanDisk (state S.Store tx.new.conn.now)
        → KeepsCommit (state S.Store tx.old.conn.now) (state S.Store tx.new.conn.now) }
    ensures survives { Survives (state S.Store tx.old.conn.now) (state S.Store tx.new.conn.now) (λ _. ⊥) }
{
    tx.execute(FIRST_DAY, &[number_value(VERSION)])
}

/// Makes the tables inside the transaction.
fn build<S: Alter>(tx: &mut Transaction<'_, S>) -> Result<(), Error>
    ensures same_reference { tx.new.conn.ghost_name ≡ tx.old.conn.ghost_name }
    ensures made { HasCleanDisk (state S.Store tx.new.conn.now) → (was : Database)
        → IsBuilt was 0 [] (state S.Store tx.old.conn.now)
        → OnOk result (IsUnderWay was first_content (state S.Store tx.new.conn.now)) }
    ensures kept { HasCleanDisk (state S.Store tx.new.conn.now)
        → KeepsCommit (state S.Store tx.old.conn.now) (state S.Store tx.new.conn.now) }
    ensures survives { Survives (state S.Store tx.old.conn.now) (state S.Store tx.new.conn.now) (λ _. ⊥) }
{
    create_from(tx, 0)?;
    first_choice(tx)?;
    first_day(tx)?;
    Ok(())
}

/// Makes the tables in a transaction of their own.
pub fn create_tables<S: Alter>(conn: &mut Connection<S>) -> Result<(), Stopped>
    requires { conn.old.in_transaction ≡ false }
    ensures mode { conn.new.in_transaction ≡ false }
    ensures done { HasCleanDisk (state S.Store conn.new) → IsBlank (state S.Store conn.old)
        → OnOk result (Rests first_content (state S.Store conn.new)) }
    ensures undone { HasCleanDisk (state S.Store conn.new) → IsBlank (state S.Store conn.old)
        → IsTrue (state S.Store conn.new).is_open → IfErr result (λ e. IsBefore e → IsBlank (state S.Store conn.new)) }
    ensures early { IfErr result (λ e. IsBefore e → Survives (state S.Store conn.old) (state S.Store conn.new)
        (λ _. ⊥)) }
    ensures crash { Survives (state S.Store conn.old) (state S.Store conn.new)
        (λ trees. IsBlank (state S.Store conn.old) → Holds first_content trees) }
{
    let mut tx = conn.transaction();
    match build(&mut tx) {
        Ok(()) => {}
        Err(error) => return Err(Stopped::Before(error)),
    }
    match tx.commit() {
        Ok(()) => Ok(()),
        Err(error) => Err(Stopped::AtCommit(error)),
    }
}
