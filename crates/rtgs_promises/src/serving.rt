//! A request to a desk over tables.
ghost use Rattle.std.specs.Prelude.{◌≡◌};
ghost use Rattle.sqlite.specs.Held.{state};
ghost use Rattle.sqlite.specs.State.{HasCleanDisk};
ghost use Rattle.sqlite.specs.Tree.{Trees};
ghost use Rattle.rtgs_book.specs.declared.book.Book.{Book};
ghost use Rattle.rtgs_desk.specs.Holding.{Holds};
ghost use Rattle.rtgs_promises.specs.Headline.{AreExactly};
ghost use Rattle.rtgs_promises.specs.Keys.{IsServed};

use crate::books::{each_resolution_settles_the_greatest_choice, nothing_settles_early};
use rtgs_desk::Desk;
use rtgs_http_server::{Served, serve_one};
use rtgs_keeper::Keeper;
use rtgs_laws::repeats::laws::life_is_a_run;
use rtgs_money::KeyDigest;
use rtgs_rows::laws::stored_balances_are_the_postings;
use rtgs_tables::SqlKeeper;
use sqlite::Alter;
use std::alloc::Global;
use std::io::{Read, Write};

/// Serves a request. Whatever a crash then leaves, the request came to it.
pub(crate) fn serve<R: Read, W: Write, S: Alter + Drop>(
    alloc: Global,
    desk: &mut Desk<SqlKeeper<S>>,
    reader: &mut R,
    writer: &mut W,
    operator: &KeyDigest,
) -> Served
    ensures comes { HasCleanDisk (state S.Store desk.new.keeper.conn) → (start : Book)
        → Holds ⟦<SqlKeeper<S> as Keeper>⟧ desk.old start
        → (trees : Trees) → (state S.Store desk.new.keeper.conn).may_leave trees
        → (found : Book) × AreExactly found trees
        × IsServed ⟦<SqlKeeper<S> as Keeper>⟧ operator.now start (R.remaining reader.old) (W.contents writer.old)
        (W.contents writer.new) result found }
    ensures honest { HasCleanDisk (state S.Store desk.new.keeper.conn)
        → HasCleanDisk (state S.Store desk.old.keeper.conn) }
{
    life_is_a_run();
    each_resolution_settles_the_greatest_choice();
    nothing_settles_early();
    stored_balances_are_the_postings();
    desk.holds_a_sound_book();
    serve_one(alloc, reader, writer, desk, operator)
}
