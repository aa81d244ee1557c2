//! What callers get from the clauses, proved: each text of a sound book is written whole.
ghost use Rattle.std.specs.Prelude.{OnOk};
ghost use Rattle.std.specs.Io.KnownBytes.{Appends};
ghost use Rattle.rtgs_book.specs.Soundness.{IsSound};
ghost use Rattle.rtgs_statements.specs.Listings.{orders_text, marks_text};
ghost use Rattle.rtgs_statements.specs.Texts.{statement, report};

use super::shelf::Shelf;
use rtgs_book::Book;
use rtgs_money::{BusinessDate, Code};
use rtgs_statements::BookTextFault;
use std::alloc::Global;
use std::io::Write;

fn write_statement<W: Write>(
    alloc: Global,
    out: &mut W,
    book: Book,
    code: Code,
    date: BusinessDate,
) -> Result<(), BookTextFault>
    requires { IsSound book }
    ensures { OnOk result (Appends (W.contents out.old) (W.contents out.new) (statement book code date)) }
{
    let mut shelf = Shelf::new(book);
    rtgs_statements::write_statement(alloc, out, &mut shelf, &code, date)
}

fn write_report<W: Write>(
    alloc: Global,
    out: &mut W,
    book: Book,
    date: BusinessDate,
) -> Result<(), BookTextFault>
    requires { IsSound book }
    ensures { OnOk result (Appends (W.contents out.old) (W.contents out.new) (report book date)) }
{
    let mut shelf = Shelf::new(book);
    rtgs_statements::write_report(alloc, out, &mut shelf, date)
}

fn write_orders<W: Write>(
    alloc: Global,
    out: &mut W,
    book: Book,
    date: BusinessDate,
) -> Result<(), BookTextFault>
    requires { IsSound book }
    ensures { OnOk result (Appends (W.contents out.old) (W.contents out.new) (orders_text book date)) }
{
    let mut shelf = Shelf::new(book);
    rtgs_statements::write_orders(alloc, out, &mut shelf, date)
}

fn write_marks<W: Write>(
    alloc: Global,
    out: &mut W,
    book: Book,
    date: BusinessDate,
) -> Result<(), BookTextFault>
    requires { IsSound book }
    ensures { OnOk result (Appends (W.contents out.old) (W.contents out.new) (marks_text book date)) }
{
    let mut shelf = Shelf::new(book);
    rtgs_statements::write_marks(alloc, out, &mut shelf, date)
}
