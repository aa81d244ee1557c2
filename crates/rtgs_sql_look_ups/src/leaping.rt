//! Passing over orders that are not of a date, by leaps: each is twice as long as the last while it passes orders, and
//! then half as long.
ghost use Rattle.std.specs.Prelude.{◌≡◌, ◌⊎◌, ◌<◌, ◌≤◌, ◌==◌, ◌+◌, ◌-◌, ◌^◌, min, true, false, IfOk};
ghost use Rattle.rtgs_book.specs.declared.book.Book.{Book};
ghost use Rattle.rtgs_book.specs.declared.limits.TheConstants.{LARGEST_NUMBER};
ghost use Rattle.rtgs_rows.specs.Keeping.{HoldsBook};
ghost use Rattle.rtgs_sql_look_ups.specs.Finding.{IsLook};
ghost use Rattle.rtgs_sql_look_ups.specs.Skipping.{Between, IsOff, IsPlainOff};
ghost use Rattle.sqlite.specs.State.{HasCleanDisk};
ghost use Rattle.sqlite.specs.Held.{state};

use crate::skipping::{pass_dues, pass_plain};
use rtgs_book::{Fault, LARGEST_NUMBER};
use rtgs_money::BusinessDate;
use sqlite::{Alter, Connection};

/// There and back it takes some sixty leaps to any number. The others are for orders with due dates in the way.
const MOST_LEAPS: u32 = 300;

/// What a leap says about the next one.
#[derive(Clone, Copy, Debug)]
enum Landing {
    /// It passed orders.
    Further,
    /// The first plain order past it is of no earlier date, or was not found, so it goes nowhere.
    Short,
    /// It passed none, or all.
    Last,
}

/// How long the next leap is.
#[derive(Clone, Copy, Debug)]
struct Stride {
    length: u64,
    grows: bool,
}

impl Stride {
    /// The stride after a leap that landed so. One that was halved to nothing, and passed orders, grows again.
    fn after(self, landing: Landing) -> Stride
        ensures doubles { landing ≡ Landing.Further → self.grows ≡ true
            → (min (self.length + self.length + 1) (2 ^ 64 - 1) ≤ result.length) × (result.grows ≡ true) }
        ensures halves { landing ≡ Landing.Short → result.length + result.length ≤ self.length }
        ensures turns { self.grows ≡ false → (result.length + result.length ≤ self.length)
            × (result.grows ≡ (self.length == 0)) }
    {
        match landing {
            Landing::Further if self.grows => Stride {
                length: self.length.saturating_mul(2).saturating_add(1),
                grows: true,
            },
            _ => Stride {
                length: self.length / 2,
                grows: self.length == 0,
            },
        }
    }
}

/// The number up to which both plain orders and those with due dates are passed, and `at` where that is none.
fn lesser_above(at: u64, plain: u64, dues: u64) -> u64
    ensures rises { at ≤ result }
    ensures plain { at < result → result ≤ plain }
    ensures dues { at < result → result ≤ dues }
{
    let lesser = if plain < dues { plain } else { dues };
    if lesser < at { at } else { lesser }
}

/// How far orders above `at` are of other dates, where plain ones are up to `upto`.
fn land<S: Alter>(
    conn: &mut Connection<S>,
    date: BusinessDate,
    at: u64,
    upto: u64,
) -> Result<u64, Fault>
    ensures looks { IsLook S.Store conn.old conn.new result }
    ensures rises { IfOk result (λ to. at ≤ to) }
    ensures found { HasCleanDisk (state S.Store conn.new) → (book : Book) → HoldsBook S.Store conn.old book
        → Between (IsPlainOff date) at upto book.orders → IfOk result (λ to. Between (IsOff date) at to book.orders) }
{
    match pass_dues(conn, date, at, upto) {
        Ok(passed) => Ok(lesser_above(at, upto, passed)),
        Err(fault) => Err(fault),
    }
}

/// Where a leap from `at` has landed that passed orders up to `to`.
fn landed(at: u64, to: u64) -> Landing
    ensures further { at < to → to < LARGEST_NUMBER → result ≡ Landing.Further }
    ensures last { (to ≤ at) ⊎ (LARGEST_NUMBER ≤ to) → result ≡ Landing.Last }
{
    if at < to && to < LARGEST_NUMBER as u64 {
        Landing::Further
    } else {
        Landing::Last
    }
}

/// A leap from `at`: how far orders above it are of other dates, and where it landed.
fn leap<S: Alter>(
    conn: &mut Connection<S>,
    date: BusinessDate,
    at: u64,
    length: u64,
) -> Result<(u64, Landing), Fault>
    ensures looks { IsLook S.Store conn.old conn.new result }
    ensures rises { IfOk result (λ (to, landing). at ≤ to) }
    ensures found { HasCleanDisk (state S.Store conn.new) → (book : Book) → HoldsBook S.Store conn.old book
        → IfOk result (λ (to, landing). Between (IsOff date) at to book.orders) }
{
    let goal = at.saturating_add(length).min(LARGEST_NUMBER as u64);
    let (from, upto) = match pass_plain(conn, date, goal) {
        Ok(passed) => passed,
        Err(fault) => return Err(fault),
    };
    if from > at {
        return Ok((at, Landing::Short));
    }
    match land(conn, date, at, upto) {
        Ok(to) => Ok((to, landed(at, to))),
        Err(fault) => Err(fault),
    }
}

/// A number up to which no order above this one is of the date: the number before the next order of the date, unless
/// more orders with due dates are in the way than the leaps pass over.
pub(crate) fn pass_over<S: Alter>(
    conn: &mut Connection<S>,
    date: BusinessDate,
    number: u64,
) -> Result<u64, Fault>
    ensures looks { IsLook S.Store conn.old conn.new result }
    ensures rises { IfOk result (λ at. number ≤ at) }
    ensures found { HasCleanDisk (state S.Store conn.new) → (book : Book) → HoldsBook S.Store conn.old book
        → IfOk result (λ at. Between (IsOff date) number at book.orders) }
{
    let mut at = number;
    let mut stride = Stride {
        length: 0,
        grows: true,
    };
    for _leap in 0..MOST_LEAPS {
        match leap(conn, date, at, stride.length) {
            Ok((to, landing)) => {
                at = to;
                if let Landing::Last = landing {
                    return Ok(at);
                }
                stride = stride.after(landing);
            }
            Err(fault) => return Err(fault),
        }
    }
    Ok(at)
}
