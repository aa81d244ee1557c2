//! Tables of an earlier version become those of the newest.
ghost use Rattle.std.specs.Prelude.{◌≡◌, ◌≢◌, ◌⊎◌, ◌≤◌, true, false, Ok, Err, IfOk, IfErr, OnOk};
ghost use Rattle.rtgs_book.specs.declared.book.Book.{Book};
ghost use Rattle.rtgs_book.specs.declared.rule.Rule.{Rule};
ghost use Rattle.rtgs_rows.specs.Content.{Content, Holds, Rests, RestsIn};
ghost use Rattle.rtgs_rows.specs.Migrating.{HasNoMore, Migrates};
ghost use Rattle.rtgs_sql_columns.specs.Blank.{IsBlank};
ghost use Rattle.rtgs_sql_queries.specs.Answering.{KeepsTables};
ghost use Rattle.rtgs_tables.specs.Loading.{MayLeaveNoMore};
ghost use Rattle.rtgs_tables.specs.Migrating.{IsJudged, WasJudged, IsWritten, ExplainsMigration};
ghost use Rattle.sqlite.specs.State.{HasCleanDisk, Survives};
ghost use Rattle.sqlite.specs.Held.{state};

use crate::faults::{fault_of, fault_of_commit};
use rtgs_book::Fault;
use rtgs_rows::laws::records_stand_in_order;
use rtgs_rows::numbers::VERSION;
use rtgs_sql_loading::{load_book, version_of};
use rtgs_sql_writes::{is_name_taken, upgrade_tables};
use sqlite::{Alter, Connection};
use std::alloc::Global;

/// The version that the tables are of, once the book in them is judged, and the tables that the version lacks can be
/// made.
fn judged_version<S: Alter>(alloc: Global, conn: &mut Connection<S>) -> Result<u64, Fault>
    ensures judged { HasCleanDisk (state S.Store conn.new) → IfOk result (λ version. (book : Book)
        × IsJudged (state S.Store conn.old) version book) }
    ensures explained { HasCleanDisk (state S.Store conn.new)
        → IfErr result (ExplainsMigration (state S.Store conn.old)) }
    ensures same { HasCleanDisk (state S.Store conn.new) → result ≢ Err Fault.StoreFault
        → KeepsTables (state S.Store conn.old) (state S.Store conn.new) }
    ensures survives { Survives (state S.Store conn.old) (state S.Store conn.new) (λ _. ⊥) }
    ensures blank { HasCleanDisk (state S.Store conn.new) → IsBlank (state S.Store conn.old)
        → IfOk result (λ _. ⊥) × ((rule : Rule) → result ≢ Err (Fault.Inconsistent rule)) }
    ensures mode { conn.old.in_transaction ≡ false → conn.new.in_transaction ≡ false }
    ensures honest { HasCleanDisk (state S.Store conn.new) → HasCleanDisk (state S.Store conn.old) }
{
    let version = version_of(alloc, conn)?;
    if is_name_taken(conn, version) {
        return Err(Fault::NotADeskFile);
    }
    load_book(alloc, conn, version)?;
    Ok(version)
}

/// Makes tables of an earlier version those of the newest. Lack of memory comes before the call that commits, and
/// changes nothing.
fn upgrade<S: Alter>(conn: &mut Connection<S>, version: u64) -> Result<(), Fault>
    requires earlier { version ≤ VERSION }
    requires idle { conn.old.in_transaction ≡ false }
    ensures done { HasCleanDisk (state S.Store conn.new) → (content : Content)
        → RestsIn version content (state S.Store conn.old) → HasNoMore version content
        → OnOk result (Rests content (state S.Store conn.new)) }
    ensures kinds { IfErr result (λ fault. (fault ≡ Fault.OutOfMemory) ⊎ (fault ≡ Fault.StoreFault)) }
    ensures memory { HasCleanDisk (state S.Store conn.new) → result ≡ Err Fault.OutOfMemory
        → KeepsTables (state S.Store conn.old) (state S.Store conn.new)
        × MayLeaveNoMore (state S.Store conn.old) (state S.Store conn.new) }
    ensures crash { Survives (state S.Store conn.old) (state S.Store conn.new) (λ trees. (content : Content)
        → RestsIn version content (state S.Store conn.old) → HasNoMore version content → Holds content trees) }
    ensures mode { conn.new.in_transaction ≡ false }
{
    let Err(stopped) = upgrade_tables(conn, version) else {
        return Ok(());
    };
    Err(fault_of_commit(fault_of(conn, &stopped)))
}

/// Makes tables of an earlier version those of the newest, in one transaction, once the book in them is judged. The
/// answer is whether anything was written: it is no where the tables are of the newest version. What holds no book of a
/// version that is known is answered as by a loading, before anything is written, and as `NotADeskFile` where something
/// has the name of a table that the version lacks. Lack of memory changes nothing.
pub fn migrate<S: Alter>(alloc: Global, conn: &mut Connection<S>) -> Result<bool, Fault>
    requires { conn.old.in_transaction ≡ false }
    ensures migrates { HasCleanDisk (state S.Store conn.new) → Migrates S.Store conn.old conn.new result }
    ensures given { HasCleanDisk (state S.Store conn.new) → IfOk result (WasJudged (state S.Store conn.old)) }
    ensures explained { HasCleanDisk (state S.Store conn.new)
        → IfErr result (ExplainsMigration (state S.Store conn.old)) }
    ensures only { HasCleanDisk (state S.Store conn.new) → result ≢ Ok true → result ≢ Err Fault.StoreFault
        → KeepsTables (state S.Store conn.old) (state S.Store conn.new)
        × MayLeaveNoMore (state S.Store conn.old) (state S.Store conn.new) }
    ensures survives { Survives (state S.Store conn.old) (state S.Store conn.new) (IsWritten (state S.Store conn.old)) }
    ensures blank { HasCleanDisk (state S.Store conn.new) → IsBlank (state S.Store conn.old)
        → IfOk result (λ _. ⊥) × ((rule : Rule) → result ≢ Err (Fault.Inconsistent rule)) }
    ensures mode { conn.new.in_transaction ≡ false }
    ensures honest { HasCleanDisk (state S.Store conn.new) → HasCleanDisk (state S.Store conn.old) }
{
    records_stand_in_order();
    let version = judged_version(alloc, conn)?;
    if version < VERSION {
        upgrade(conn, version)?;
        Ok(true)
    } else {
        Ok(false)
    }
}
