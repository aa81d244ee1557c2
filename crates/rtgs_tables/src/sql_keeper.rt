//! A book in the tables of a connection.
ghost use Rattle.std.specs.Prelude.{◌≡◌, ◌≢◌, ◌⊎◌, true, false, Err, IfOk, IfErr};
ghost use Rattle.rtgs_book.specs.declared.book.Book.{Book};
ghost use Rattle.rtgs_book.specs.declared.fault.Fault.{Fault};
ghost use Rattle.rtgs_rows.specs.Keeping.{IsBookOf, HoldsBook, MayLeave, IsWhole};
ghost use Rattle.rtgs_rows.specs.Querying.{HasTables};
ghost use Rattle.rtgs_book.specs.Books.{new_book};
ghost use Rattle.rtgs_book.specs.Ranges.{Fits};
ghost use Rattle.rtgs_book.specs.Soundness.{IsSound};
ghost use Rattle.rtgs_tables.specs.Building.{IsBlank, LeavesNew, StaysBlank};
ghost use Rattle.sqlite.specs.State.{HasCleanDisk, IsLive, IsUnchanged, Opens, Survives};
ghost use Rattle.sqlite.specs.Held.{state};
ghost use Rattle.sqlite.specs.Tree.{Trees};
ghost use Rattle.rtgs_rows.specs.Content.{Content, Holds, HasNoTables};
ghost use Rattle.rtgs_tables.specs.Loading.{AnswersBook, LeavesConnection};
ghost use Rattle.rtgs_rows.specs.RowLaws.{RowsTellTheBook, TablesOfABookAreWhole, TablesOfABookAreWhole-prop};

use crate::faults::fault_of;
use rtgs_book::cores::laws::records_are_listed;
use rtgs_book::{Book, Change, Core, Fault, Mark, Order, Posting};
use rtgs_keeper::{CommitFault, Keeper};
use rtgs_money::{BusinessDate, Code, Reference};
use rtgs_rows::laws;
use rtgs_rows::numbers::VERSION;
use rtgs_soundness::core_of;
use rtgs_sql_loading::load_book;
use rtgs_sql_look_ups::{find_order, find_posting, next_of, next_order};
use rtgs_sql_writes::{create_tables, write};
use sqlite::{Alter, Connection};
use std::alloc::Global;

/// Keeps a book in seven tables, over a connection of any store. It has failed once the store has answered a fault, to
/// a change or to a reading.
#[derive(Drop)]
pub struct SqlKeeper<S: Alter + Drop> {
    conn: Connection<S>,
    failed: bool,
    ghost idle: { conn.in_transaction ≡ false },
    ghost tells: { RowsTellTheBook },
    ghost tables_are_whole: { TablesOfABookAreWhole } by { TablesOfABookAreWhole-prop },
}

impl<S: Alter + Drop> SqlKeeper<S> {
    /// Makes the tables of a new book in an empty database, in one transaction. On a fault the connection comes back,
    /// and a stop leaves no tables or those of the new book.
    pub fn create(conn: Connection<S>) -> Result<SqlKeeper<S>, (CommitFault, Connection<S>)>
        requires { conn.in_transaction ≡ false }
        ensures made { IfOk result (λ k. HasCleanDisk (state S.Store k.conn) → IsBlank (state S.Store conn)
            → HoldsBook S.Store k.conn new_book) }
        ensures stops { IfOk result (λ k. HasCleanDisk (state S.Store k.conn) → IsBlank (state S.Store conn)
            → (other : Book) → MayLeave S.Store k.conn other → other ≡ new_book) }
        ensures left { IfErr result (λ e. HasCleanDisk (state S.Store e.1) → IsBlank (state S.Store conn)
            → LeavesNew S.Store e.1) }
        ensures memory { IfErr result (λ e. e.0 ≡ CommitFault.OutOfMemory → HasCleanDisk (state S.Store e.1)
            → IsBlank (state S.Store conn) → StaysBlank (state S.Store e.1)) }
        ensures honest { IfOk result (λ k. HasCleanDisk (state S.Store k.conn) → HasCleanDisk (state S.Store conn))
            × IfErr result (λ e. HasCleanDisk (state S.Store e.1) → HasCleanDisk (state S.Store conn)) }
        ensures fresh { IfOk result (λ k. k.failed ≡ false) }
        ensures idle { IfErr result (λ e. (e.1.in_transaction ≡ false) × (e.0 ≢ CommitFault.Failed)) }
    {
        let mut conn = conn;
        leaves_no_tables(&conn);
        laws::first_rows_are_the_new_book();
        laws::rows_tell_the_book();
        laws::no_tables_hold_no_book();
        match create_tables(&mut conn) {
            Ok(()) => Ok(SqlKeeper::open(conn)),
            Err(stopped) => {
                let fault = fault_of(&mut conn, &stopped);
                Err((fault, conn))
            }
        }
    }

    /// Over a connection whose tables are there already. `load` says whether they are. Where a database is opened whose
    /// tables hold a book, as a stop left them, the keeper has it; where a stopped `create` left no tables, nothing is
    /// there yet, and `load` says so.
    pub fn open(conn: Connection<S>) -> SqlKeeper<S>
        requires { conn.in_transaction ≡ false }
        ensures is { (result.conn ≡ conn) × (result.failed ≡ false) }
        ensures found { Opens (state S.Store conn) → IsLive (state S.Store conn) → (book : Book) (content : Content)
            → Holds content (state S.Store conn).committed.trees → IsBookOf book content
            → HoldsBook S.Store result.conn book }
        ensures none { Opens (state S.Store conn) → IsLive (state S.Store conn)
            → HasNoTables (state S.Store conn).committed.trees → IsBlank (state S.Store result.conn) }
    {
        laws::tables_of_a_desk_are_read_as_such();
        laws::no_tables_are_read_as_none();
        laws::rows_tell_the_book();
        laws::tables_of_a_book_are_whole();
        SqlKeeper {
            conn,
            failed: false,
        }
    }

    /// Gives the book that the tables hold, which is judged: a book that is given is sound, and its stored balances are
    /// the sums from scratch. On a keeper that has failed it is `StoreFault`, and nothing is done.
    pub fn load(&mut self, alloc: Global) -> Result<Book, Fault>
        ensures honest { HasCleanDisk (state S.Store self.new.conn) → HasCleanDisk (state S.Store self.old.conn) }
        ensures answers { HasCleanDisk (state S.Store self.new.conn)
            → AnswersBook S.Store self.old.conn self.new.conn result }
        ensures leaves { HasCleanDisk (state S.Store self.new.conn)
            → LeavesConnection S.Store self.old.conn self.new.conn result }
        ensures sound { IfOk result IsSound }
        ensures fits { IfOk result Fits }
        ensures fault { result ≡ Err Fault.StoreFault → self.new.failed ≡ true }
        ensures only_fault { result ≢ Err Fault.StoreFault → self.new.failed ≡ self.old.failed }
        ensures failed { self.old.failed ≡ true → (result ≡ Err Fault.StoreFault) × (self.new ≡ self.old) }
    {
        if self.failed {
            return Err(Fault::StoreFault);
        }
        laws::records_stand_in_order();
        let loaded = load_book(alloc, &mut self.conn, VERSION);
        if let Err(Fault::StoreFault) = loaded {
            self.failed = true;
        }
        loaded
    }

    /// The connection over which it keeps the book.
    pub fn into_connection(self) -> Connection<S>
        ensures { result ≡ self.conn }
    {
        let SqlKeeper { conn, failed: _ } = self;
        conn
    }
}

impl<S: Alter + Drop> Keeper for SqlKeeper<S> {
    ghost use Rattle.rtgs_rows.specs.Keeping.{HoldsBook, MayLeave, IsWhole};
    ghost use Rattle.rtgs_tables.specs.Between.{between};
    ghost use Rattle.rtgs_rows.specs.Querying.{HasTables};
    ghost use Rattle.rtgs_tables.specs.Building.{IsBlank};
    ghost use Rattle.rtgs_tables.specs.Loading.{ExplainsLoad, ShowsBalanced, MayLeaveNoMore};

    ghost content = { λ k. HoldsBook S.Store k.conn };

    ghost leaves = { λ k. MayLeave S.Store k.conn };

    ghost has_failed = { λ k. k.failed };

    ghost has_tables = { λ k. HasTables S.Store k.conn };

    ghost is_empty = { λ k. IsBlank (state S.Store k.conn) };

    ghost is_whole = { λ k. IsWhole S.Store k.conn };

    ghost explains = { λ k. ExplainsLoad (state S.Store k.conn) };

    ghost shows = { λ k. ShowsBalanced (state S.Store k.conn) };

    ghost leaves_no_more = { λ old new. MayLeaveNoMore (state S.Store old.conn) (state S.Store new.conn) };

    ghost is_honest = { λ k. HasCleanDisk (state S.Store k.conn) };

    ghost still = { λ k. let it = between (record {
      view = S.Store.view;
      faults = S.Store.faults;
      recovers = S.Store.recovers;
      is_shielded = S.Store.is_shielded;
      is_step = S.Store.is_step;
      blamed = S.Store.blamed;
      names = S.Store.names;
    }) k.conn k.tells k.tables_are_whole (S.Store.settled k.conn.store) (S.Store.stays k.conn.store) in record {
      settled = it.0;
      stays = it.1;
      tabled = it.2;
      whole = it.3;
      unmoved = λ _ left. left;
    } };

    fn core(&mut self, alloc: Global) -> Result<Core, Fault> {
        let book = self.load(alloc)?;
        Ok(core_of(alloc, &book)?)
    }

    fn find_order(&mut self, sender: &Code, reference: &Reference) -> Result<Option<Order>, Fault> {
        if self.failed {
            return Err(Fault::StoreFault);
        }
        let found = find_order(&mut self.conn, sender, reference);
        self.failed = is_store_fault(&found);
        found
    }

    fn find_posting(&mut self, reference: &Reference) -> Result<Option<Posting>, Fault> {
        if self.failed {
            return Err(Fault::StoreFault);
        }
        let found = find_posting(&mut self.conn, reference);
        self.failed = is_store_fault(&found);
        found
    }

    fn next_posting(&mut self, date: BusinessDate, number: u64) -> Result<Option<Posting>, Fault> {
        if self.failed {
            return Err(Fault::StoreFault);
        }
        records_are_listed();
        let found = next_of(&mut self.conn, date.number(), number);
        self.failed = is_store_fault(&found);
        found
    }

    fn next_order(&mut self, date: BusinessDate, number: u64) -> Result<Option<Order>, Fault> {
        if self.failed {
            return Err(Fault::StoreFault);
        }
        let found = next_order(&mut self.conn, date, number);
        self.failed = is_store_fault(&found);
        found
    }

    fn next_mark(&mut self, date: BusinessDate, number: u64) -> Result<Option<Mark>, Fault> {
        if self.failed {
            return Err(Fault::StoreFault);
        }
        records_are_listed();
        let found = next_of(&mut self.conn, date.number(), number);
        self.failed = is_store_fault(&found);
        found
    }

    fn commit(&mut self, change: &Change) -> Result<(), CommitFault> {
        if self.failed {
            return Err(CommitFault::Failed);
        }
        let rows = change.as_slice();
        laws::rows_tell_the_book();
        laws::changes_stand_in_order();
        laws::changed_rows_are_the_changed_book();
        let stopped = match write(&mut self.conn, rows) {
            Ok(()) => return Ok(()),
            Err(stopped) => stopped,
        };
        let fault = fault_of(&mut self.conn, &stopped);
        if fault == CommitFault::Store {
            self.failed = true;
        }
        Err(fault)
    }
}

/// While a database has no tables, a stop leaves none: the engine keeps its list of them true.
fn leaves_no_tables<S: Alter>(conn: &Connection<S>)
    ensures { IsBlank (state S.Store conn.now) → (trees : Trees) → (state S.Store conn.now).may_leave trees
        → HasNoTables trees }
{
    // Called for its contract alone: it states that the engine's list of tables is true.
    conn.schema();
}

/// Whether the store failed.
fn is_store_fault<A>(found: &Result<A, Fault>) -> bool
    ensures yes { found.now ≡ Err Fault.StoreFault → result ≡ true }
    ensures no { found.now ≢ Err Fault.StoreFault → result ≡ false }
{
    match found {
        Err(Fault::StoreFault) => true,
        _ => false,
    }
}
