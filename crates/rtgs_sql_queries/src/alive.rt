//! Whether a connection has stayed open.
ghost use Rattle.std.specs.Prelude.{◌≡◌, false, IsTrue};
ghost use Rattle.rtgs_sql_queries.specs.Answering.{KeepsTables};
ghost use Rattle.rtgs_sql_queries.specs.Faults.{LookFailed};
ghost use Rattle.sqlite.specs.State.{HasCleanDisk, IsUnchanged, Survives};
ghost use Rattle.sqlite.specs.Held.{state};

use sqlite::{Alter, Connection, Error};

/// A text that is refused at its first word.
const NO_STATEMENT: &str = "OPEN";

/// Whether the connection has stayed open. The engine looks at its store before it reads a text, and sees at its first
/// word that this one is no statement: so the look takes no memory. The answer is no only where the look itself failed.
pub fn is_alive<S: Alter>(conn: &mut Connection<S>) -> bool
    ensures mode { conn.old.in_transaction ≡ false → conn.new.in_transaction ≡ false }
    ensures honest { HasCleanDisk (state S.Store conn.new) → HasCleanDisk (state S.Store conn.old) }
    ensures alive { HasCleanDisk (state S.Store conn.new) → IsTrue result
        → IsUnchanged (state S.Store conn.old) (state S.Store conn.new) }
    ensures kept { HasCleanDisk (state S.Store conn.new) → IsTrue result → IsTrue (state S.Store conn.old).is_open
        × KeepsTables (state S.Store conn.old) (state S.Store conn.new) }
    ensures dead { HasCleanDisk (state S.Store conn.new) → result ≡ false
        → LookFailed (state S.Store conn.old) (state S.Store conn.new) }
    ensures survives { Survives (state S.Store conn.old) (state S.Store conn.new) (λ _. ⊥) }
{
    match conn.prepare(NO_STATEMENT) {
        Ok(_) => false,
        Err(error) => match error {
            Error::SqlInputError(_) => true,
            _ => false,
        },
    }
}
