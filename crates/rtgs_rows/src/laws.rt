//! Laws of the definitions. Each function does nothing: its contract is the law.
ghost use Rattle.std.specs.Prelude.{List};
ghost use Rattle.rtgs_book.specs.declared.book.Book.{Book};
ghost use Rattle.rtgs_book.specs.declared.change.RowChange.{RowChange};
ghost use Rattle.sqlite.specs.Schema.{Schema};
ghost use Rattle.sqlite.specs.Tree.{Trees};
ghost use Rattle.sqlite.specs.Held.{state};
ghost use Rattle.sqlite_catalog.specs.Listing.{IsSound};
ghost use Rattle.rtgs_rows.specs.Content.{Content, HasNoTables, Holds, AreInOrder, with_changes, tables_for};
ghost use Rattle.rtgs_book.specs.Changes.{IsChange};
ghost use Rattle.rtgs_book.specs.Books.{new_book};
ghost use Rattle.rtgs_rows.specs.Keeping.{IsBookOf, IsWhole, AreBalances, AddsUp, first_content};
ghost use Rattle.rtgs_rows.specs.RowLaws.{RecordsStandInOrder, ChangesStandInOrder, ChangedRowsAreTheBook};
ghost use Rattle.rtgs_rows.specs.RowLaws.{NextRowIsAbove};
ghost use Rattle.rtgs_rows.specs.RowLaws.{RowsTellTheBook, NoTablesAreReadAsNone, DesksAreReadAsSuch};
ghost use Rattle.rtgs_rows.specs.RowLaws.{NoTablesHoldNoBook, TablesOfABookAreWhole, ShownRecordsAreHeld};

use rtgs_book::laws::{new_book_is_sound, total_is_issued};
use rtgs_money::laws::dates_have_distinct_texts;
use sqlite::{Alter, Connection};

/// In tables that hold a book no key comes twice, and each list stands in the order of its row numbers.
pub fn records_stand_in_order()
    ensures { RecordsStandInOrder }
{}

/// The row number that a new participant gets is above all.
pub fn next_row_is_above()
    ensures { NextRowIsAbove }
{}

/// While a change is made row by row, no key comes twice and each new number is the greatest.
pub fn changes_stand_in_order()
    ensures { ChangesStandInOrder }
{}

/// The rows that a change makes are those of the book after it, stored balances with them, where its values are in
/// their forms.
pub fn changed_rows_are_the_changed_book()
    ensures { ChangedRowsAreTheBook }
{}

/// Tables hold one book at most.
pub fn rows_tell_the_book()
    ensures { RowsTellTheBook }
{
    dates_have_distinct_texts();
}

/// A database that has no tables is read as one, whenever it is opened.
pub fn no_tables_are_read_as_none()
    ensures { NoTablesAreReadAsNone }
{}

/// A database of the tables of a desk is read with their schema, whenever it is opened.
pub fn tables_of_a_desk_are_read_as_such()
    ensures { DesksAreReadAsSuch }
{}

/// A database that has no tables holds no book.
pub fn no_tables_hold_no_book()
    ensures { NoTablesHoldNoBook }
{}

/// The rows of a new desk are those of a new book.
pub fn first_rows_are_the_new_book()
    ensures { IsBookOf new_book first_content }
{
    new_book_is_sound();
}

/// Where the queries show the records of a sound book, with its balances stored, the tables hold that book, all of it,
/// whichever version of the tables it is.
pub fn shown_records_are_held()
    ensures { ShownRecordsAreHeld }
{}

/// Tables that hold a book are whole: each row has a value in each column, and the rows stand in the order of their
/// numbers.
pub fn tables_of_a_book_are_whole()
    ensures { TablesOfABookAreWhole }
{}

/// In tables that hold a book the stored balances add up to the postings' cents: money is what was posted.
pub fn stored_balances_are_the_postings()
    ensures { (book : Book) (content : Content) → IsBookOf book content → AddsUp content }
{
    total_is_issued();
}

/// Where a stop leaves tables that hold a book, whichever it is, their stored balances add up to their postings' cents.
pub fn what_a_stop_leaves_adds_up<S: Alter>(conn: &Connection<S>)
    ensures some { IsWhole S.Store conn.now → (trees : Trees) → (state S.Store conn.now).may_leave trees
        → (content : Content) × Holds content trees × AddsUp content }
    ensures all { IsWhole S.Store conn.now → (trees : Trees) → (state S.Store conn.now).may_leave trees
        → (content : Content) → Holds content trees → AddsUp content }
{
    stored_balances_are_the_postings();
}
