//! Laws of the definitions. Each function does nothing: its contract is the law.
ghost use Rattle.std.specs.Prelude.{ℕ, List};
ghost use Rattle.rtgs_book.specs.declared.book.Book.{Book};
ghost use Rattle.rtgs_desk.specs.Holding.{Holds};
ghost use Rattle.rtgs_http_server.specs.Requests.{WorksForAll};

use rtgs_desk::Desk;
use rtgs_keeper::Keeper;

/// A desk of which no request asked anything yet has done what was asked of it, whoever is its operator.
pub fn a_desk_at_rest_works_for_all<K: Keeper>(desk: &Desk<K>)
    ensures { (operator : List ℕ) (book : Book) → Holds K.Keeper desk.now book
        → WorksForAll K.Keeper operator book desk.now }
{
    desk.holds_a_sound_book();
}
