//! Commands to a desk over tables, and what a stop then leaves.
ghost use Rattle.std.specs.Prelude.{◌≡◌, true, false, Err, length, IfOk, OnErr};
ghost use Rattle.std.specs.List.{AllByRecursion};
ghost use Rattle.sqlite.specs.Held.{state};
ghost use Rattle.sqlite.specs.State.{HasCleanDisk};
ghost use Rattle.rtgs_book.specs.declared.book.Book.{Book};
ghost use Rattle.rtgs_desk.specs.Holding.{Holds, Ran};
ghost use Rattle.rtgs_desk.specs.Replies.{IsOfAWorkingDesk, FailsOnce};
ghost use Rattle.rtgs_book_file.specs.stored_desk.Stored.{StopLeaves};

use crate::stored_desk::laws::what_a_session_leaves;
use rtgs_book::{Command, Refusal, WholeAnswer};
use rtgs_desk::Desk;
use rtgs_keeper::Keeper;
use rtgs_tables::SqlKeeper;
use sqlite::Alter;
use std::alloc::AllocError;

/// Carries out commands in order, as `Desk::run` does, and gives an answer to each. Lack of memory for the answers
/// comes before the first command, and changes nothing.
pub fn run<S: Alter + Drop>(
    desk: &mut Desk<SqlKeeper<S>>,
    commands: &[Command],
) -> Result<Vec<Result<WholeAnswer, Refusal>>, AllocError>
    ensures one_each { IfOk result (λ replies. length replies.items ≡ length commands.now) }
    ensures ran { IfOk result (λ replies. HasCleanDisk (state S.Store desk.new.keeper.conn) → (book : Book)
        → Holds ⟦<SqlKeeper<S> as Keeper>⟧ desk.old book
        → Ran ⟦<SqlKeeper<S> as Keeper>⟧ book commands.now replies.items desk.new) }
    ensures left { IfOk result (λ replies. HasCleanDisk (state S.Store desk.new.keeper.conn) → (book : Book)
        → Holds ⟦<SqlKeeper<S> as Keeper>⟧ desk.old book
        → StopLeaves book commands.now replies.items (state S.Store desk.new.keeper.conn)) }
    ensures honest { HasCleanDisk (state S.Store desk.new.keeper.conn)
        → HasCleanDisk (state S.Store desk.old.keeper.conn) }
    ensures faults { IfOk result (λ replies. FailsOnce desk.old.keeper.failed replies.items desk.new.keeper.failed) }
    ensures failed { desk.old.keeper.failed ≡ true → (desk.new ≡ desk.old)
        × IfOk result (λ replies. AllByRecursion (λ reply. reply ≡ Err Refusal.Failed) replies.items) }
    ensures working { IfOk result (λ replies. desk.new.keeper.failed ≡ false
        → AllByRecursion IsOfAWorkingDesk replies.items) }
    ensures err { OnErr result (desk.new ≡ desk.old) }
{
    let replies = desk.run(commands);
    what_a_session_leaves(desk);
    replies
}
