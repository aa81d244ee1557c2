//! The next record of a date, by looks at single rows.
ghost use Rattle.std.specs.Prelude.{◌≡◌, ℕ, ◌+◌, ◌<◌, ◌≤◌, ◌^◌, true, false, Option, List, IfOk};
ghost use Rattle.rtgs_book.specs.declared.book.Book.{Book};
ghost use Rattle.rtgs_book.specs.declared.limits.TheConstants.{LARGEST_NUMBER};
ghost use Rattle.rtgs_book.specs.cores.Nexts.{AreListed};
ghost use Rattle.rtgs_rows.specs.Keeping.{HoldsBook};
ghost use Rattle.rtgs_sql_look_ups.specs.Finding.{IsLook};
ghost use Rattle.rtgs_sql_look_ups.specs.Seeking.{first_above, first_of_date, is_early_found, kept_of_date, IsEarly};
ghost use Rattle.rtgs_sql_look_ups.specs.Seeking.{TurnsBetween};
ghost use Rattle.sqlite.specs.State.{HasCleanDisk};
ghost use Rattle.sqlite.specs.Held.{state};

use rtgs_book::{Fault, LARGEST_NUMBER};
use sqlite::{Alter, Connection};

/// This many halvings leave one of all numbers.
const MOST_HALVINGS: u32 = 30;

/// A record of a table whose rows are numbered, and whose dates never fall along the numbers.
pub trait Listed: Sized {
    // The records of a book.
    ghost listed: { Book → List Self };

    ghost number_of: { Self → ℕ };

    // The date as a number, and 0 where there is none.
    ghost date_of: { Self → ℕ };

    /// The first record with a number above this one.
    fn first_after<S: Alter>(conn: &mut Connection<S>, number: u64) -> Result<Option<Self>, Fault>
        requires { number < 2 ^ 63 }
        ensures looks { IsLook S.Store conn.old conn.new result }
        ensures found { HasCleanDisk (state S.Store conn.new) → (book : Book) → HoldsBook S.Store conn.old book
            → IfOk result (λ found. found ≡ first_above number_of number (listed book)) };

    /// The date as a number, and 0 where there is none.
    fn date_number(&self) -> u32
        ensures { result ≡ date_of self.now };
}

/// Whether what was found is of an earlier date.
fn is_early<T: Listed>(found: &Option<T>, date: u32) -> bool
    ensures { result ≡ is_early_found T.date_of date found.now }
{
    match found {
        Some(record) => record.date_number() < date,
        None => false,
    }
}

/// What was found, where it is of this date.
fn of_date<T: Listed + Drop>(found: Option<T>, date: u32) -> Option<T>
    ensures { result ≡ kept_of_date T.date_of date found }
{
    match found {
        Some(record) => {
            if record.date_number() == date {
                Some(record)
            } else {
                None
            }
        }
        None => None,
    }
}

/// Whether the first record above a number is of an earlier date.
fn is_early_after<T: Listed + Drop, S: Alter>(
    conn: &mut Connection<S>,
    date: u32,
    number: u64,
) -> Result<bool, Fault>
    requires { number < 2 ^ 63 }
    ensures looks { IsLook S.Store conn.old conn.new result }
    ensures found { HasCleanDisk (state S.Store conn.new) → (book : Book) → HoldsBook S.Store conn.old book
        → IfOk result (λ early. early ≡ is_early_found T.date_of date (first_above T.number_of number
        (T.listed book))) }
{
    match T::first_after(conn, number) {
        Ok(found) => Ok(is_early(&found, date)),
        Err(fault) => Err(fault),
    }
}

/// The half of these numbers between which the records' dates turn: up to the lower one they are earlier, and past the
/// higher one none is. One number is left as it is.
fn halve<T: Listed + Drop, S: Alter>(
    conn: &mut Connection<S>,
    date: u32,
    low: u64,
    high: u64,
) -> Result<(u64, u64), Fault>
    requires { (low ≤ high) × (high ≤ LARGEST_NUMBER) }
    ensures looks { IsLook S.Store conn.old conn.new result }
    ensures bounds { IfOk result (λ (least, most). (low ≤ least) × (least ≤ most) × (most ≤ high)) }
    ensures half { IfOk result (λ (least, most). most + most + low ≤ high + least + least) }
    ensures found { HasCleanDisk (state S.Store conn.new) → (book : Book) → HoldsBook S.Store conn.old book
        → AreListed T.number_of T.date_of (T.listed book)
        → TurnsBetween T.number_of T.date_of date low high (T.listed book)
        → IfOk result (λ (least, most). TurnsBetween T.number_of T.date_of date least most (T.listed book)) }
{
    if low == high {
        return Ok((low, high));
    }
    let middle = low + (high - low) / 2;
    match is_early_after::<T, S>(conn, date, middle) {
        Ok(true) => Ok((middle + 1, high)),
        Ok(false) => Ok((low, middle)),
        Err(fault) => Err(fault),
    }
}

/// The number up to which the records are of earlier dates and past which none is, where up to `low` they are. It takes
/// `MOST_HALVINGS` looks at most.
fn seek<T: Listed + Drop, S: Alter>(
    conn: &mut Connection<S>,
    date: u32,
    low: u64,
) -> Result<u64, Fault>
    requires { low ≤ LARGEST_NUMBER }
    ensures looks { IsLook S.Store conn.old conn.new result }
    ensures bounds { IfOk result (λ at. (low ≤ at) × (at ≤ LARGEST_NUMBER)) }
    ensures found { HasCleanDisk (state S.Store conn.new) → (book : Book) → HoldsBook S.Store conn.old book
        → AreListed T.number_of T.date_of (T.listed book) → IsEarly T.number_of T.date_of date low (T.listed book)
        → IfOk result (λ at. TurnsBetween T.number_of T.date_of date at at (T.listed book)) }
{
    let mut least = low;
    let mut most = LARGEST_NUMBER as u64;
    for _round in 0..MOST_HALVINGS {
        match halve::<T, S>(conn, date, least, most) {
            Ok(half) => (least, most) = half,
            Err(fault) => return Err(fault),
        }
    }
    Ok(least)
}

/// The first record of the date above a number up to which the records are of earlier dates.
fn later_of<T: Listed + Drop, S: Alter>(
    conn: &mut Connection<S>,
    date: u32,
    low: u64,
) -> Result<Option<T>, Fault>
    requires { low ≤ LARGEST_NUMBER }
    ensures looks { IsLook S.Store conn.old conn.new result }
    ensures found { HasCleanDisk (state S.Store conn.new) → (book : Book) → HoldsBook S.Store conn.old book
        → AreListed T.number_of T.date_of (T.listed book) → IsEarly T.number_of T.date_of date low (T.listed book)
        → IfOk result (λ found. found ≡ first_of_date T.number_of T.date_of date low (T.listed book)) }
{
    match seek::<T, S>(conn, date, low) {
        Ok(at) => kept_after(conn, date, at),
        Err(fault) => Err(fault),
    }
}

/// The first record above a number, where it is of the date.
fn kept_after<T: Listed + Drop, S: Alter>(
    conn: &mut Connection<S>,
    date: u32,
    number: u64,
) -> Result<Option<T>, Fault>
    requires { number ≤ LARGEST_NUMBER }
    ensures looks { IsLook S.Store conn.old conn.new result }
    ensures found { HasCleanDisk (state S.Store conn.new) → (book : Book) → HoldsBook S.Store conn.old book
        → IfOk result (λ found. found ≡ kept_of_date T.date_of date
        (first_above T.number_of number (T.listed book))) }
{
    match T::first_after(conn, number) {
        Ok(found) => Ok(of_date(found, date)),
        Err(fault) => Err(fault),
    }
}

/// The record of the date with the least number above this one.
pub fn next_of<T: Listed + Drop, S: Alter>(
    conn: &mut Connection<S>,
    date: u32,
    number: u64,
) -> Result<Option<T>, Fault>
    ensures looks { IsLook S.Store conn.old conn.new result }
    ensures found { HasCleanDisk (state S.Store conn.new) → (book : Book) → HoldsBook S.Store conn.old book
        → AreListed T.number_of T.date_of (T.listed book)
        → IfOk result (λ found. found ≡ first_of_date T.number_of T.date_of date number (T.listed book)) }
{
    if number >= LARGEST_NUMBER as u64 {
        return Ok(None);
    }
    match T::first_after(conn, number) {
        Ok(found) => {
            if is_early(&found, date) {
                later_of(conn, date, number + 1)
            } else {
                Ok(of_date(found, date))
            }
        }
        Err(fault) => Err(fault),
    }
}
