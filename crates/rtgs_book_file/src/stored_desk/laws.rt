//! What a stop leaves of a desk over tables. The function does nothing: its contract is the law.
ghost use Rattle.std.specs.Prelude.{List};
ghost use Rattle.sqlite.specs.Held.{state};
ghost use Rattle.sqlite.specs.Tree.{Trees};
ghost use Rattle.rtgs_book.specs.declared.book.Book.{Book};
ghost use Rattle.rtgs_book.specs.declared.command.Command.{Command};
ghost use Rattle.rtgs_book.specs.Calm.{IsCalm};
ghost use Rattle.rtgs_book.specs.Outcome.{Reply};
ghost use Rattle.rtgs_book.specs.Session.{IsSession};
ghost use Rattle.rtgs_book_file.specs.stored_desk.Stored.{AreLeft};

use rtgs_desk::Desk;
use rtgs_keeper::Keeper;
use rtgs_rows::laws::stored_balances_are_the_postings;
use rtgs_tables::SqlKeeper;
use sqlite::Alter;

/// If commands with these replies were a session whatever a crash leaves, and what it leaves is whole and calm, as the
/// desk's `submit`, `run` and a batch promise it, then the tables that a crash leaves hold a book that the session may
/// find, which is calm, and their stored balances add up to what was posted.
pub fn what_a_session_leaves<S: Alter + Drop>(desk: &Desk<SqlKeeper<S>>)
    ensures { (start : Book) (commands : List Command) (replies : List Reply)
        → ⟦<SqlKeeper<S> as Keeper>⟧.is_whole desk.now.keeper
        → ((found : Book) → ⟦<SqlKeeper<S> as Keeper>⟧.leaves desk.now.keeper found
        → IsSession (record { start = start; commands = commands; replies = replies; found = found }))
        → ((found : Book) → ⟦<SqlKeeper<S> as Keeper>⟧.leaves desk.now.keeper found → IsCalm found)
        → (trees : Trees) → (state S.Store desk.now.keeper.conn).may_leave trees
        → AreLeft start commands replies trees }
{
    stored_balances_are_the_postings();
}
