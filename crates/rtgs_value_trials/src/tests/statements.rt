//! Texts from outside, each call on its happy path, and writers that fail.
mod day_reports;
mod faults;
mod listed;
mod of_participants;
mod refused_reads;
mod shelf;
mod uses;

use super::books::book_of;
use super::setting::{code, date};
use rtgs_book::Book;
use rtgs_statements::{write_marks, write_orders, write_report, write_statement};
use shelf::Shelf;
use std::alloc::Global;
use std::test::Fail;

/// The statement of a participant for a date over a book of these records, as text.
fn statement(alloc: Global, of: &str, day: &str, records: &str) -> Result<String, Fail> {
    let mut shelf = Shelf::new(book_of(alloc, records)?);
    let mut out = Vec::new(alloc);
    match write_statement(alloc, &mut out, &mut shelf, &code(of)?, date(day)?) {
        Ok(()) => Ok(String::from_utf8(out)?),
        Err(_) => Err(Fail::from("no statement")),
    }
}

/// The report of a date over a book, as text.
fn report(alloc: Global, day: &str, book: Book) -> Result<String, Fail> {
    let mut shelf = Shelf::new(book);
    let mut out = Vec::new(alloc);
    match write_report(alloc, &mut out, &mut shelf, date(day)?) {
        Ok(()) => Ok(String::from_utf8(out)?),
        Err(_) => Err(Fail::from("no report")),
    }
}

/// The orders of a date over a book of these records, as text.
fn orders(alloc: Global, day: &str, records: &str) -> Result<String, Fail> {
    let mut shelf = Shelf::new(book_of(alloc, records)?);
    let mut out = Vec::new(alloc);
    match write_orders(alloc, &mut out, &mut shelf, date(day)?) {
        Ok(()) => Ok(String::from_utf8(out)?),
        Err(_) => Err(Fail::from("no orders")),
    }
}

/// The marks of a date over a book of these records, as text.
fn marks(alloc: Global, day: &str, records: &str) -> Result<String, Fail> {
    let mut shelf = Shelf::new(book_of(alloc, records)?);
    let mut out = Vec::new(alloc);
    match write_marks(alloc, &mut out, &mut shelf, date(day)?) {
        Ok(()) => Ok(String::from_utf8(out)?),
        Err(_) => Err(Fail::from("no marks")),
    }
}
