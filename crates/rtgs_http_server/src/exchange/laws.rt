//! Laws of desks that serve. Each function does nothing: its contract is the law.
ghost use Rattle.std.specs.Prelude.{◌≡◌, ◌++◌, false, List};
ghost use Rattle.rtgs_book.specs.declared.book.Book.{Book};
ghost use Rattle.rtgs_book.specs.declared.command.Command.{Command};
ghost use Rattle.rtgs_book.specs.Outcome.{Reply};
ghost use Rattle.rtgs_desk.specs.Holding.{Holds};
ghost use Rattle.rtgs_desk.specs.Seen.{Seen};
ghost use Rattle.rtgs_http_server.specs.exchange.Handling.{Makes, Works};

use crate::exchange::readings::stands;
use rtgs_desk::Desk;
use rtgs_keeper::Keeper;
use rtgs_laws::repeats::laws::sessions_join;

/// A desk that was asked for nothing yet has done what it was asked for: its commands are none, and a session.
pub fn a_desk_at_rest_works<K: Keeper>(desk: &Desk<K>)
    ensures { (book : Book) → Holds K.Keeper desk.now book → Works K.Keeper book desk.now }
{
    desk.holds_a_sound_book();
    stands(desk);
}

/// Requests join: the commands of one that left this desk working, and those of the next, are one session from the book
/// before the first. Which they are, `Handles` says of each: those that its request asks for.
pub fn requests_join<K: Keeper>(desk: &Desk<K>)
    ensures { (old : Book) (new : Seen K) (commands more : List Command) (replies again : List Reply)
        (first : Makes K.Keeper old commands replies desk.now) → K.has_failed desk.now.keeper ≡ false
        → Makes K.Keeper first.last more again new
        → Makes K.Keeper old (commands ++ more) (replies ++ again) new }
{
    desk.holds_a_sound_book();
    sessions_join();
}
