//! Tables of an earlier version.
ghost use Rattle.std.specs.Prelude.{◌≡◌, false, IsTrue, IfOk, IfErr};
ghost use Rattle.sqlite.specs.Held.{state};
ghost use Rattle.sqlite.specs.State.{HasCleanDisk};
ghost use Rattle.rtgs_book_file.specs.stored_desk.Migrated.{IsUnmigrated, WasMigration};

use crate::stored_desk::opening::rests;
use rtgs_book::Fault;
use rtgs_rows::laws::{no_tables_are_read_as_none, tables_of_a_desk_are_read_as_such};
use sqlite::{Alter, Connection};
use std::alloc::Global;

/// Makes tables of an earlier version those of the newest, in one transaction. Whether it wrote: tables of the newest
/// version stay as they are. The book that they hold is judged first, and where there is none, or one that is not
/// sound, nothing is written. A fault of the store leaves the tables as they were, or all of the newest version; any
/// other fault leaves them as they were.
pub fn migrate<S: Alter>(alloc: Global, conn: &mut Connection<S>) -> Result<bool, Fault>
    requires { conn.old.in_transaction ≡ false }
    ensures migrated { IfOk result (λ wrote. HasCleanDisk (state S.Store conn.new)
        → IsTrue (state S.Store conn.old).is_open
        → WasMigration wrote (state S.Store conn.old) (state S.Store conn.new)) }
    ensures refused { IfErr result (λ fault. HasCleanDisk (state S.Store conn.new)
        → IsTrue (state S.Store conn.old).is_open
        → IsUnmigrated (state S.Store conn.old) fault (state S.Store conn.new)) }
    ensures idle { conn.new.in_transaction ≡ false }
    ensures honest { HasCleanDisk (state S.Store conn.new) → HasCleanDisk (state S.Store conn.old) }
{
    rests(conn);
    tables_of_a_desk_are_read_as_such();
    no_tables_are_read_as_none();
    // The contract is by cases of the result, and the prover sees them where it is taken apart.
    match rtgs_tables::migrate(alloc, conn) {
        Ok(wrote) => Ok(wrote),
        Err(fault) => Err(fault),
    }
}
