//! The next record of a date where there are none, where records of earlier days stand before it, and at the first and
//! last numbers, in a keeper in memory and in one over tables.
use super::super::setting::{MONDAY, TUESDAY, code, date, new_keeper, reference};
use rtgs_book::{Change, Mark, Order, OrderState, Posting, RowChange, Rows};
use rtgs_keeper::Keeper;
use rtgs_money::{Amount, BusinessDate, Cents, PostingAmount, Reference};
use rtgs_tests_desks::{MemoryKeeper, ensure};
use std::alloc::Global;
use std::test::Fail;

/// The Friday before the week.
const FRIDAY: u32 = 20240301;

/// The largest number that a record has.
const LAST: u64 = 999_999_999;

/// The reference of a record, as P-1.
fn name(alloc: Global, letter: &str, number: u64) -> Result<Reference, Fail> {
    let text = format!(in alloc; "{letter}-{number}")?;
    reference(text.as_str())
}

/// Adds ALFA's posting of this number.
fn adds_posting(alloc: Global, number: u64, day: Option<BusinessDate>) -> Result<RowChange, Fail> {
    Ok(RowChange::AddPosting(Posting {
        number,
        code: code("ALFA")?,
        reference: name(alloc, "P", number)?,
        cents: PostingAmount::from_cents(5).ok_or("a posting")?,
        date: day,
    }))
}

/// Adds ALFA's order of this number, which waits.
fn adds_order(alloc: Global, number: u64, day: BusinessDate) -> Result<RowChange, Fail> {
    Ok(RowChange::AddOrder(Order {
        number,
        sender: code("ALFA")?,
        reference: name(alloc, "A", number)?,
        receiver: code("BETA")?,
        amount: Amount::from_cents(5).ok_or("an amount")?,
        date: day,
        due: None,
        state: OrderState::Queued,
    }))
}

/// Adds the mark of this number.
fn adds_mark(number: u64, day: BusinessDate) -> RowChange {
    RowChange::AddMark(Mark {
        number,
        date: day,
        count: 1,
        value: Cents::new(5),
    })
}

/// Adds a posting, an order and a mark of this number and day.
fn adds_three(alloc: Global, number: u64, day: BusinessDate) -> Result<Change, Fail> {
    let rows = [
        adds_posting(alloc, number, Some(day))?,
        adds_order(alloc, number, day)?,
        adds_mark(number, day),
    ];
    Ok(Rows::from_vec(Vec::from_slice(alloc, &rows)?))
}

/// Keeps a posting, an order and a mark of each of these numbers, all of one day.
fn keep_each<K: Keeper>(
    alloc: Global,
    keeper: &mut K,
    numbers: &[u64],
    day: u32,
) -> Result<(), Fail> {
    let day = date(day)?;
    for number in numbers {
        keeper.commit(&adds_three(alloc, *number, day)?)?;
    }
    Ok(())
}

/// The numbers of the posting, the order and the mark that come next on a day.
fn nexts<K: Keeper>(keeper: &mut K, day: u32, number: u64) -> Result<[Option<u64>; 3], Fail> {
    let day = date(day)?;
    let posting = keeper.next_posting(day, number)?;
    let order = keeper.next_order(day, number)?;
    let mark = keeper.next_mark(day, number)?;
    Ok([
        posting.map(|posting| posting.number),
        order.map(|order| order.number),
        mark.map(|mark| mark.number),
    ])
}

/// After each of these numbers come these on a day.
fn gives<K: Keeper>(
    keeper: &mut K,
    day: u32,
    numbers: &[u64],
    wanted: [Option<u64>; 3],
) -> Result<(), Fail> {
    for number in numbers {
        ensure(nexts(keeper, day, *number)? == wanted)?;
    }
    Ok(())
}

/// Nothing comes next on a day without records, nor after the last of one that has some.
fn ends_after<K: Keeper>(keeper: &mut K, last: u64) -> Result<(), Fail> {
    let numbers = [0, 1, last, LAST, 1 << 63, (1 << 63) + 1, u64::MAX];
    gives(keeper, MONDAY, &numbers, [None; 3])?;
    gives(keeper, TUESDAY, &numbers[2..], [None; 3])
}

/// Each record of Friday comes after the number before it.
fn gives_each<K: Keeper>(keeper: &mut K, earlier: &[u64]) -> Result<(), Fail> {
    for number in earlier {
        let before = number.saturating_sub(1);
        gives(keeper, FRIDAY, &[before], [Some(*number); 3])?;
    }
    Ok(())
}

/// The one record of Tuesday comes after each number before its own.
fn gives_the_last<K: Keeper>(keeper: &mut K, last: u64) -> Result<(), Fail> {
    for number in 0..last {
        gives(keeper, TUESDAY, &[number], [Some(last); 3])?;
    }
    Ok(())
}

/// A keeper of nothing gives the one record of Tuesday behind this many of Friday.
fn passes_over<K: Keeper>(
    alloc: Global,
    keeper: &mut K,
    earlier: &[u64],
    last: u64,
) -> Result<(), Fail> {
    keep_each(alloc, keeper, earlier, FRIDAY)?;
    keep_each(alloc, keeper, &[last], TUESDAY)?;
    gives_the_last(keeper, last)?;
    gives_each(keeper, earlier)?;
    gives(keeper, FRIDAY, &[last.saturating_sub(1)], [None; 3])?;
    ends_after(keeper, last)
}

/// The numbers from 1 to this one.
fn up_to(alloc: Global, number: u64) -> Result<Vec<u64>, Fail> {
    let mut numbers = Vec::new(alloc);
    for each in 1..=number {
        numbers.push(each)?;
    }
    Ok(numbers)
}

/// Keepers in memory and over tables give the one record of Tuesday behind this many of Friday.
fn both_pass_over(alloc: Global, earlier: u64) -> Result<(), Fail> {
    let numbers = up_to(alloc, earlier)?;
    let last = earlier.saturating_add(1);
    let numbers = numbers.as_slice();
    passes_over(alloc, &mut MemoryKeeper::new(alloc), numbers, last)?;
    passes_over(alloc, &mut new_keeper(alloc)?, numbers, last)
}

#[test]
fn records_of_earlier_days_are_passed_over(rt: HostRuntime) -> Result<(), Fail> {
    for earlier in [0, 1, 2, 3, 7, 8, 9, 20] {
        both_pass_over(rt.alloc(), earlier)?;
    }
    Ok(())
}

/// A keeper of nothing gives the record of the last number, and nothing after it.
fn reaches_the_last<K: Keeper>(alloc: Global, keeper: &mut K) -> Result<(), Fail> {
    keep_each(alloc, keeper, &[1], FRIDAY)?;
    keep_each(alloc, keeper, &[LAST], TUESDAY)?;
    gives(keeper, TUESDAY, &[0, 1, 2, LAST - 1], [Some(LAST); 3])?;
    gives(keeper, FRIDAY, &[0], [Some(1); 3])?;
    gives(keeper, MONDAY, &[2, 100_000, LAST - 1], [None; 3])?;
    ends_after(keeper, LAST)
}

#[test]
fn the_last_number_has_nothing_after_it(rt: HostRuntime) -> Result<(), Fail> {
    reaches_the_last(rt.alloc(), &mut MemoryKeeper::new(rt.alloc()))?;
    reaches_the_last(rt.alloc(), &mut new_keeper(rt.alloc())?)
}

/// Two postings from before the first day, and one of Monday.
fn three_postings(alloc: Global) -> Result<Change, Fail> {
    let rows = [
        adds_posting(alloc, 1, None)?,
        adds_posting(alloc, 2, None)?,
        adds_posting(alloc, 3, Some(date(MONDAY)?))?,
    ];
    Ok(Rows::from_vec(Vec::from_slice(alloc, &rows)?))
}

/// A keeper of nothing gives postings from before the first day on none.
fn keeps_back<K: Keeper>(alloc: Global, keeper: &mut K) -> Result<(), Fail> {
    keeper.commit(&three_postings(alloc)?)?;
    gives(keeper, MONDAY, &[0, 1, 2], [Some(3), None, None])?;
    gives(keeper, FRIDAY, &[0, 1, 2, 3], [None; 3])?;
    gives(keeper, TUESDAY, &[0, 1, 2, 3], [None; 3])
}

#[test]
fn a_posting_from_before_the_first_day_is_of_no_day(rt: HostRuntime) -> Result<(), Fail> {
    keeps_back(rt.alloc(), &mut MemoryKeeper::new(rt.alloc()))?;
    keeps_back(rt.alloc(), &mut new_keeper(rt.alloc())?)
}
