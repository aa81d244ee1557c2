//! The records of a table.
ghost use Rattle.std.specs.Prelude.{◌≡◌, ◌≢◌, ◌⊎◌, ℕ, false, Err, IfOk, OnOk, ⊤};
ghost use Rattle.rtgs_book.specs.declared.rule.Rule.{Rule};
ghost use Rattle.rtgs_rows.specs.Querying.{as_shown};
ghost use Rattle.rtgs_rows.specs.TableRecords.{desk_records, resolution_records};
ghost use Rattle.rtgs_rows.specs.Tables.{HasTable, desk_table, resolution_table};
ghost use Rattle.rtgs_sql_columns.specs.Tables.{query_text};
ghost use Rattle.rtgs_sql_loading.specs.Accounts.{InForm, IsOneRow, IsDeskOf};
ghost use Rattle.rtgs_sql_loading.specs.Displaying.{IsUnread, ShowsNoChoice};
ghost use Rattle.rtgs_sql_loading.specs.Loading.{ReadsList, ReadsAlone, ReadsOn, Stops, read_after, list_after};
ghost use Rattle.sqlite.specs.Effect.{Database};
ghost use Rattle.sqlite.specs.State.{State, HasCleanDisk};
ghost use Rattle.sqlite.specs.Held.{state};
ghost use Rattle.sqlite.specs.Tree.{Trees};

use crate::faults::fault_of;
use crate::one_row::read_one;
use rtgs_book::Fault;
use rtgs_rows::{DeskRow, ResolutionRow};
use rtgs_sql_queries::table_row::{ListRow, TableRow, decode};
use rtgs_sql_queries::whole_table::table_rows;
use sqlite::{Alter, Connection};
use std::alloc::Global;

/// What is read of tables of a version.
pub(crate) trait FromTables: Sized {
    // It is what the tables of the version have, where they have records, and what their rows and their queries tell.
    ghost tells: { ℕ → State → Self → Type 0 };

    // It was so before what was read first.
    ghost after: { (version : ℕ) (first old : State) → ReadsOn first old → HasCleanDisk old → (it : Self)
        → tells version old it → tells version first it };

    // The rows of the tables that the version has are in form.
    ghost formed: { ℕ → Trees → Type 0 };

    // The query of one of the version's tables has no answer, or shows rows that are not in form.
    ghost illegible: { ℕ → Database → Type 0 };

    /// Reads the tables that this version has, one after another.
    fn read<S: Alter>(alloc: Global, conn: &mut Connection<S>, version: u64) -> Result<Self, Fault>
        ensures read { HasCleanDisk (state S.Store conn.new) → IfOk result (tells version (state S.Store conn.old)) }
        ensures stops { Stops version (state S.Store conn.old) (state S.Store conn.new) result
            (λ trees. ¬ formed version trees) (illegible version) }
        ensures on { OnOk result (ReadsOn (state S.Store conn.old) (state S.Store conn.new)) }
        ensures kinds { (rule : Rule) → result ≢ Err (Fault.Inconsistent rule) }
        ensures mode { conn.old.in_transaction ≡ false → conn.new.in_transaction ≡ false }
        ensures honest { HasCleanDisk (state S.Store conn.new) → HasCleanDisk (state S.Store conn.old) };
}

// What the one row of the table `desk` says, where it says this version.
impl FromTables for DeskRow {
    ghost tells = { λ version s desk. (desk.version ≡ version) × ReadsAlone version desk_records s desk };

    ghost after = { λ version first old on clean desk read. (read.0, read_after on clean read.1) };

    ghost formed = { λ version trees. IsDeskOf version (as_shown desk_table trees) };

    ghost illegible = { λ version db. IsUnread db (query_text desk_table) (IsDeskOf version) };

    fn read<S: Alter>(
        alloc: Global,
        conn: &mut Connection<S>,
        version: u64,
    ) -> Result<DeskRow, Fault> {
        let desk = read_one::<DeskRow, S>(alloc, conn)?;
        if desk.version == version {
            Ok(desk)
        } else {
            Err(Fault::NotADeskFile)
        }
    }
}

// What the one row of the table `resolution` says. In a version before the table no day is automatic, and nothing is
// asked.
impl FromTables for ResolutionRow {
    ghost tells = { λ version s it. ReadsAlone version resolution_records s it };

    ghost after = { λ version first old on clean it. read_after on clean };

    ghost formed = { λ version trees. HasTable version resolution_table
        → IsOneRow resolution_records (as_shown resolution_table trees) };

    ghost illegible = { ShowsNoChoice };

    fn read<S: Alter>(
        alloc: Global,
        conn: &mut Connection<S>,
        version: u64,
    ) -> Result<ResolutionRow, Fault> {
        if version < ResolutionRow::first_version() {
            return Ok(ResolutionRow { automatic: false });
        }
        read_one::<ResolutionRow, S>(alloc, conn)
    }
}

// The records of a table, in the order of its query. A version before the table has none, and nothing is asked.
impl<T: ListRow + Drop> FromTables for Vec<T> {
    ghost tells = { λ version s v. ReadsList version T.records s v.items };

    ghost after = { λ version first old on clean v. list_after on clean };

    ghost formed = { λ version trees. HasTable version T.records.table
        → InForm T.records (as_shown T.records.table trees) };

    ghost illegible = { λ version db. HasTable version T.records.table
        × IsUnread db (query_text T.records.table) (InForm T.records) };

    fn read<S: Alter>(
        alloc: Global,
        conn: &mut Connection<S>,
        version: u64,
    ) -> Result<Vec<T>, Fault> {
        if version < T::first_version() {
            return Ok(Vec::new(alloc));
        }
        match table_rows::<T, S>(alloc, conn) {
            Ok(rows) => decode(alloc, rows.as_slice()),
            Err(error) => Err(fault_of(conn, &error)),
        }
    }
}

// One after the other.
impl<A: FromTables + Drop, B: FromTables> FromTables for (A, B) {
    ghost tells = { λ version s both. A.tells version s both.0 × B.tells version s both.1 };

    ghost after = { λ version first old on clean both read. (
      A.after version first old on clean both.0 read.0,
      B.after version first old on clean both.1 read.1,
    ) };

    ghost formed = { λ version trees. A.formed version trees × B.formed version trees };

    ghost illegible = { λ version db. A.illegible version db ⊎ B.illegible version db };

    fn read<S: Alter>(
        alloc: Global,
        conn: &mut Connection<S>,
        version: u64,
    ) -> Result<(A, B), Fault> {
        let one = A::read(alloc, conn, version)?;
        let other = B::read(alloc, conn, version)?;
        Ok((one, other))
    }
}

// Nothing more.
impl FromTables for () {
    ghost tells = { λ version s none. ⊤ };

    ghost after = { λ version first old on clean none read. read };

    ghost formed = { λ version trees. ⊤ };

    ghost illegible = { λ version db. ⊥ };

    fn read<S: Alter>(alloc: Global, conn: &mut Connection<S>, version: u64) -> Result<(), Fault> {
        Ok(())
    }
}
