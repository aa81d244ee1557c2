//! Cents as text, and sums in units.
use super::super::script::{lines_of, sides};
use super::forms::{Form, reads};
use rtgs_money::{Amount, Cents, Credit, PostingAmount, Units};
use rtgs_tests_desks::ensure;
use std::alloc::Global;
use std::test::Fail;

/// Bytes, and the cents of the amount.
const AMOUNTS: &str = "
'1' = 1
'9' = 9
'10' = 10
'999999999999' = 999999999999
'1000000000000' = 1000000000000
'' = BadAmount
'0' = BadAmount
'00' = BadAmount
'-0' = BadAmount
'-1' = BadAmount
'+1' = BadAmount
'007' = BadAmount
' 1' = BadAmount
'1 ' = BadAmount
'1.0' = BadAmount
'1e3' = BadAmount
'x' = BadAmount
'1000000000001' = BadAmount
'18446744073709551616' = BadAmount
'%ff' = BadAmount
";

#[test]
fn an_amount_is_one_cent_to_a_trillion(rt: HostRuntime) -> Result<(), Fail> {
    reads(rt.alloc(), Form::Amount, AMOUNTS)
}

/// Bytes, and the cents of the posting.
const POSTINGS: &str = "
'1' = 1
'-1' = -1
'700' = 700
'-5000' = -5000
'1000000000000000' = 1000000000000000
'-1000000000000000' = -1000000000000000
'' = BadAmount
'-' = BadAmount
'0' = BadAmount
'-0' = BadAmount
'+1' = BadAmount
'--1' = BadAmount
'-01' = BadAmount
'01' = BadAmount
'- 1' = BadAmount
'1000000000000001' = BadAmount
'-1000000000000001' = BadAmount
'9223372036854775808' = BadAmount
'%e2%88%921' = BadAmount
";

#[test]
fn a_posting_is_any_cents_but_none_up_to_a_quadrillion(rt: HostRuntime) -> Result<(), Fail> {
    reads(rt.alloc(), Form::Posting, POSTINGS)
}

/// Bytes, and the cents of the debit.
const DEBITS: &str = "
'1' = -1
'250' = -250
'1000000000000000' = -1000000000000000
'' = BadAmount
'0' = BadAmount
'01' = BadAmount
'-1' = BadAmount
'+1' = BadAmount
' 1' = BadAmount
'1000000000000001' = BadAmount
";

#[test]
fn a_debit_is_read_from_its_digits(rt: HostRuntime) -> Result<(), Fail> {
    reads(rt.alloc(), Form::Debit, DEBITS)
}

/// Bytes, and the cents of the credit limit.
const CREDITS: &str = "
'0' = 0
'100' = 100
'100000000000000' = 100000000000000
'' = BadAmount
'00' = BadAmount
'-0' = BadAmount
'-1' = BadAmount
'100000000000001' = BadAmount
";

#[test]
fn a_credit_limit_is_nothing_to_a_hundred_trillion(rt: HostRuntime) -> Result<(), Fail> {
    reads(rt.alloc(), Form::Credit, CREDITS)
}

/// Cents that make no amount.
const NO_AMOUNTS: &str = "
0
1000000000001
18446744073709551615
";

/// Cents that make no posting.
const NO_POSTINGS: &str = "
0
1000000000000001
-1000000000000001
-9223372036854775808
";

// The cents of a line make no amount.
fn is_no_amount(line: &str) -> Result<(), Fail> {
    match Amount::from_cents(line.parse::<u64>()?) {
        None => Ok(()),
        Some(_) => Err(Fail::new(line)),
    }
}

// The cents of a line make no posting.
fn is_no_posting(line: &str) -> Result<(), Fail> {
    match PostingAmount::from_cents(line.parse::<i64>()?) {
        None => Ok(()),
        Some(_) => Err(Fail::new(line)),
    }
}

// The least amount is less than the largest.
fn amounts_rise() -> Result<(), Fail> {
    let least = Amount::from_cents(1).ok_or("no least amount")?;
    let largest = Amount::from_cents(1_000_000_000_000).ok_or("no largest amount")?;
    ensure(least < largest)
}

// Cents at a limit make a value.
fn limits_make_values() -> Result<(), Fail> {
    let debit = PostingAmount::from_cents(-1).ok_or("no debit")?;
    let credit = Credit::from_cents(0).ok_or("no credit")?;
    ensure(debit.cents() == -1 && credit == Credit::NONE)
}

#[test]
fn cents_outside_the_range_make_no_value(rt: HostRuntime) -> Result<(), Fail> {
    for line in lines_of(NO_AMOUNTS)? {
        is_no_amount(line)?;
    }
    for line in lines_of(NO_POSTINGS)? {
        is_no_posting(line)?;
    }
    ensure(Credit::from_cents(100_000_000_000_001).is_none())?;
    amounts_rise()?;
    limits_make_values()
}

/// Cents, and how they are shown in units.
const UNITS: &str = "
0 = 0.00
1 = 0.01
-1 = -0.01
-5 = -0.05
99 = 0.99
-99 = -0.99
100 = 1.00
-100 = -1.00
123456 = 1234.56
170141183460469231731687303715884105727 = 1701411834604692317316873037158841057.27
-170141183460469231731687303715884105728 = -1701411834604692317316873037158841057.28
";

// Whether units are shown so, and as a text alike.
fn is_shown(alloc: Global, units: Units, text: &str, line: &str) -> Result<bool, Fail> {
    let printed = format!(in alloc; "{} = {units}", units.cents())?;
    Ok(units.text().as_str() == text && printed.as_str() == line)
}

fn units_of(cents: &str) -> Result<Units, Fail> {
    Ok(Units::new(cents.parse::<i128>()?))
}

// Cents are shown with two decimals as the line says.
fn shows_units(alloc: Global, line: &str) -> Result<(), Fail> {
    let (cents, text) = sides(line, " = ")?;
    if is_shown(alloc, units_of(cents)?, text, line)? {
        Ok(())
    } else {
        Err(Fail::new(line))
    }
}

// Whether the least balance is shown in units.
fn shows_the_least_balance() -> bool {
    let balance = Cents::new(i64::MIN);
    balance.cents() == i64::MIN && balance.units().text().as_str() == "-92233720368547758.08"
}

#[test]
fn units_have_two_decimals(rt: HostRuntime) -> Result<(), Fail> {
    for line in lines_of(UNITS)? {
        shows_units(rt.alloc(), line)?;
    }
    ensure(shows_the_least_balance())
}
