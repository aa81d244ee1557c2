//! What the failure of a query says of the file.
ghost use Rattle.std.specs.Prelude.{◌≡◌, ◌≢◌, ◌⊎◌, false};
ghost use Rattle.rtgs_book.specs.declared.rule.Rule.{Rule};
ghost use Rattle.rtgs_sql_queries.specs.Answering.{KeepsTables};
ghost use Rattle.rtgs_sql_queries.specs.Faults.{LookFailed};
ghost use Rattle.rtgs_sql_loading.specs.Loading.{TellsError};
ghost use Rattle.sqlite.specs.State.{HasCleanDisk, IsUnchanged, Survives};
ghost use Rattle.sqlite.specs.Held.{state};

use rtgs_book::Fault;
use rtgs_sql_queries::alive::is_alive;
use sqlite::{Alter, Connection, Error, ErrorCode};

/// What the failure of a query says of the file: lack of memory, where the connection is seen to be open still; else a
/// fault of the store, where that failed; else that the tables are not those of a desk, as where the engine finds no
/// such table, or cannot compute what a view of that name asks for.
pub(crate) fn fault_of<S: Alter>(conn: &mut Connection<S>, error: &Error) -> Fault
    ensures mode { conn.old.in_transaction ≡ false → conn.new.in_transaction ≡ false }
    ensures honest { HasCleanDisk (state S.Store conn.new) → HasCleanDisk (state S.Store conn.old) }
    ensures kinds { (rule : Rule) → result ≢ Fault.Inconsistent rule }
    ensures tells { TellsError error.now result }
    ensures must { HasCleanDisk (state S.Store conn.new) → error.now ≡ Error.SqliteFailure ErrorCode.OutOfMemory
        → (result ≡ Fault.OutOfMemory) ⊎ LookFailed (state S.Store conn.old) (state S.Store conn.new) }
    ensures same { result ≡ Fault.OutOfMemory → HasCleanDisk (state S.Store conn.new)
        → IsUnchanged (state S.Store conn.old) (state S.Store conn.new) }
    ensures kept { result ≢ Fault.StoreFault → HasCleanDisk (state S.Store conn.new)
        → KeepsTables (state S.Store conn.old) (state S.Store conn.new) }
    ensures survives { Survives (state S.Store conn.old) (state S.Store conn.new) (λ _. ⊥) }
{
    match error {
        Error::SqliteFailure(ErrorCode::OutOfMemory) if is_alive(conn) => Fault::OutOfMemory,
        Error::SqliteFailure(ErrorCode::TypeMismatch | ErrorCode::IntegerOverflow) => {
            Fault::NotADeskFile
        }
        Error::SqliteFailure(_) => Fault::StoreFault,
        _ => Fault::NotADeskFile,
    }
}
