//! Tables of an earlier version become those of the newest.
ghost use Rattle.std.specs.Prelude.{◌≡◌, ◌≤◌, ℕ, true, false, OnOk, IfErr};
ghost use Rattle.sqlite.specs.Effect.{Database};
ghost use Rattle.rtgs_rows.specs.Tables.{IsVersion, table_count};
ghost use Rattle.rtgs_rows.specs.Content.{Content, Holds, IsUnderWay, Rests, RestsIn, all_tables, tables_for_in};
ghost use Rattle.rtgs_rows.specs.Migrating.{HasNoMore};
ghost use Rattle.rtgs_sql_writes.specs.Stops.{IsBefore, IsUndone};
ghost use Rattle.rtgs_sql_writes.specs.Building.{IsBuilt, takes_a_name};
ghost use Rattle.sqlite.specs.State.{HasCleanDisk, KeepsCommit, Survives};
ghost use Rattle.sqlite.specs.Held.{state};

use crate::create::{NAMES, create_from, first_choice};
use crate::staging::Stopped;
use rtgs_rows::numbers::VERSION;
use rtgs_sql_columns::columns::number_value;
use rtgs_sql_columns::laws::one_table_answers;
use sqlite::{Alter, Connection, Error, Transaction};
use sqlite_catalog::layout::is_used;

/// How many tables a version has: the first has five, and each later one has one more.
fn count_of_tables(version: u64) -> usize
    requires { version ≤ VERSION }
    ensures { result ≡ table_count version }
{
    version as usize + 4
}

/// Whether something in the database has the name of a table that the version lacks. The newest lacks none.
pub fn is_name_taken<S: Alter>(conn: &Connection<S>, version: u64) -> bool
    ensures yes { result ≡ true → takes_a_name version (state S.Store conn.now).now.schema ≡ true }
    ensures no { result ≡ false → version ≤ VERSION
        → takes_a_name version (state S.Store conn.now).now.schema ≡ false }
{
    if version >= VERSION {
        return false;
    }
    let schema = conn.schema();
    for at in count_of_tables(version)..NAMES.len() {
        if is_used(schema, NAMES[at].as_bytes()) {
            return true;
        }
    }
    false
}

/// Says in the row of the desk that the tables are of the newest version.
fn set_version<S: Alter>(tx: &mut Transaction<'_, S>) -> Result<usize, Error>
    ensures same_reference { tx.new.conn.ghost_name ≡ tx.old.conn.ghost_name }
    ensures made { HasCleanDisk (state S.Store tx.new.conn.now) → (was : Database) (version : ℕ) (content : Content)
        → IsBuilt was (table_count VERSION) (all_tables version content) (state S.Store tx.old.conn.now)
        → OnOk result (IsUnderWay was content (state S.Store tx.new.conn.now)) }
    ensures kept { HasCleanDisk (state S.Store tx.new.conn.now)
        → KeepsCommit (state S.Store tx.old.conn.now) (state S.Store tx.new.conn.now) }
    ensures survives { Survives (state S.Store tx.old.conn.now) (state S.Store tx.new.conn.now) (λ _. ⊥) }
{
    one_table_answers();
    tx.execute(
        "UPDATE desk SET version = ?1 WHERE id = 1",
        &[number_value(VERSION)],
    )
}

/// Makes the tables that the version lacks, with the rows that a new desk has in them.
fn add_tables<S: Alter>(tx: &mut Transaction<'_, S>, version: u64) -> Result<(), Error>
    requires { version ≤ VERSION }
    ensures same_reference { tx.new.conn.ghost_name ≡ tx.old.conn.ghost_name }
    ensures made { HasCleanDisk (state S.Store tx.new.conn.now) → (was : Database) (content : Content)
        → IsVersion version → HasNoMore version content
        → IsBuilt was (table_count version) (tables_for_in version content) (state S.Store tx.old.conn.now)
        → OnOk result (IsBuilt was (table_count VERSION) (all_tables version content)
        (state S.Store tx.new.conn.now)) }
    ensures kept { HasCleanDisk (state S.Store tx.new.conn.now)
        → KeepsCommit (state S.Store tx.old.conn.now) (state S.Store tx.new.conn.now) }
    ensures survives { Survives (state S.Store tx.old.conn.now) (state S.Store tx.new.conn.now) (λ _. ⊥) }
{
    create_from(tx, count_of_tables(version))?;
    // Each earlier version lacks the table `resolution`, the only one of these in which a new desk has a row.
    if version < VERSION {
        first_choice(tx)?;
    }
    Ok(())
}

/// Makes the tables that the version lacks, and says that they are of the newest.
fn upgrade<S: Alter>(tx: &mut Transaction<'_, S>, version: u64) -> Result<(), Error>
    requires { version ≤ VERSION }
    ensures same_reference { tx.new.conn.ghost_name ≡ tx.old.conn.ghost_name }
    ensures made { HasCleanDisk (state S.Store tx.new.conn.now) → (was : Database) (content : Content)
        → IsVersion version → HasNoMore version content
        → IsBuilt was (table_count version) (tables_for_in version content) (state S.Store tx.old.conn.now)
        → OnOk result (IsUnderWay was content (state S.Store tx.new.conn.now)) }
    ensures kept { HasCleanDisk (state S.Store tx.new.conn.now)
        → KeepsCommit (state S.Store tx.old.conn.now) (state S.Store tx.new.conn.now) }
    ensures survives { Survives (state S.Store tx.old.conn.now) (state S.Store tx.new.conn.now) (λ _. ⊥) }
{
    add_tables(tx, version)?;
    set_version(tx)?;
    Ok(())
}

/// Makes tables of an earlier version those of the newest, in a transaction of their own.
pub fn upgrade_tables<S: Alter>(conn: &mut Connection<S>, version: u64) -> Result<(), Stopped>
    requires earlier { version ≤ VERSION }
    requires idle { conn.old.in_transaction ≡ false }
    ensures mode { conn.new.in_transaction ≡ false }
    ensures done { HasCleanDisk (state S.Store conn.new) → (content : Content)
        → RestsIn version content (state S.Store conn.old) → HasNoMore version content
        → OnOk result (Rests content (state S.Store conn.new)) }
    ensures undone { HasCleanDisk (state S.Store conn.new)
        → IfErr result (λ e. IsBefore e → IsUndone (state S.Store conn.old) (state S.Store conn.new)) }
    ensures early { IfErr result (λ e. IsBefore e → Survives (state S.Store conn.old) (state S.Store conn.new)
        (λ _. ⊥)) }
    ensures crash { Survives (state S.Store conn.old) (state S.Store conn.new) (λ trees. (content : Content)
        → RestsIn version content (state S.Store conn.old) → HasNoMore version content → Holds content trees) }
{
    let mut tx = conn.transaction();
    match upgrade(&mut tx, version) {
        Ok(()) => {}
        Err(error) => return Err(Stopped::Before(error)),
    }
    match tx.commit() {
        Ok(()) => Ok(()),
        Err(error) => Err(Stopped::AtCommit(error)),
    }
}
