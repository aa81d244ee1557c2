//! What a stopped transaction means, and which fault of a book that is.
ghost use Rattle.std.specs.Prelude.{◌≡◌, ◌≢◌, ◌⊎◌, false};
ghost use Rattle.rtgs_sql_queries.specs.Faults.{LookFailed};
ghost use Rattle.rtgs_sql_writes.specs.Stops.{IsBefore};
ghost use Rattle.sqlite.specs.State.{HasCleanDisk, IsUnchanged, Survives};
ghost use Rattle.sqlite.specs.Held.{state};
ghost use Rattle.rtgs_tables.specs.Faults.{fault_of_commit};

use rtgs_book::Fault;
use rtgs_keeper::CommitFault;
use rtgs_sql_queries::alive::is_alive;
use rtgs_sql_writes::Stopped;
use sqlite::{Alter, Connection, Error, ErrorCode};

/// Lack of memory before the call that commits, where the connection is seen to be open still, and else a fault of the
/// store.
pub(crate) fn fault_of<S: Alter>(conn: &mut Connection<S>, stopped: &Stopped) -> CommitFault
    ensures mode { conn.old.in_transaction ≡ false → conn.new.in_transaction ≡ false }
    ensures kinds { result ≢ CommitFault.Failed }
    ensures before { result ≡ CommitFault.OutOfMemory → IsBefore stopped.now }
    ensures cause { result ≡ CommitFault.OutOfMemory → stopped.now
        ≡ Stopped.Before (Error.SqliteFailure ErrorCode.OutOfMemory) }
    ensures must { HasCleanDisk (state S.Store conn.new)
        → stopped.now ≡ Stopped.Before (Error.SqliteFailure ErrorCode.OutOfMemory)
        → (result ≡ CommitFault.OutOfMemory) ⊎ LookFailed (state S.Store conn.old) (state S.Store conn.new) }
    ensures same { result ≡ CommitFault.OutOfMemory → HasCleanDisk (state S.Store conn.new)
        → IsUnchanged (state S.Store conn.old) (state S.Store conn.new) }
    ensures survives { Survives (state S.Store conn.old) (state S.Store conn.new) (λ _. ⊥) }
{
    match stopped {
        Stopped::Before(Error::SqliteFailure(ErrorCode::OutOfMemory)) if is_alive(conn) => {
            CommitFault::OutOfMemory
        }
        _ => CommitFault::Store,
    }
}

/// Which fault of a book a fault of a transaction is: a store that had failed before has failed.
pub fn fault_of_commit(fault: CommitFault) -> Fault
    ensures { result ≡ fault_of_commit fault }
{
    match fault {
        CommitFault::OutOfMemory => Fault::OutOfMemory,
        CommitFault::Store | CommitFault::Failed => Fault::StoreFault,
    }
}
