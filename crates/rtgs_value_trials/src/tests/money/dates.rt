//! Days and weekdays of a stock calendar.
use super::super::script::{lines_of, sides};
use super::super::setting::date;
use super::forms::{Form, reads};
use rtgs_money::BusinessDate;
use std::test::Fail;

/// Bytes, and the date's number and text.
const DATES: &str = "
'2000-01-01' = 20000101 2000-01-01
'2000-02-29' = 20000229 2000-02-29
'2024-02-29' = 20240229 2024-02-29
'2100-02-28' = 21000228 2100-02-28
'2400-02-29' = 24000229 2400-02-29
'2024-11-30' = 20241130 2024-11-30
'2999-12-31' = 29991231 2999-12-31
'' = BadDate
'1999-12-31' = BadDate
'3000-01-01' = BadDate
'2024-02-30' = BadDate
'2023-02-29' = BadDate
'2100-02-29' = BadDate
'2024-00-10' = BadDate
'2024-13-01' = BadDate
'2024-01-00' = BadDate
'2024-01-32' = BadDate
'2024-04-31' = BadDate
'2024-3-04' = BadDate
'2024-03-4' = BadDate
'20240304' = BadDate
'2024-03-04 ' = BadDate
' 2024-03-04' = BadDate
'2024/03/04' = BadDate
'2024-03/04' = BadDate
'+024-03-04' = BadDate
'2024-03-0:' = BadDate
'2024-03-0%00' = BadDate
'%ff024-03-04' = BadDate
";

/// Numbers of no date.
const NO_DATES: &str = "
0
19991231
20240230
30000101
4294967295
";

// The number of a line is no date's.
fn is_no_date(line: &str) -> Result<(), Fail> {
    match BusinessDate::from_number(line.parse::<u32>()?) {
        None => Ok(()),
        Some(_) => Err(Fail::new(line)),
    }
}

#[test]
fn a_date_is_a_day_of_the_calendar_from_2000_to_2999(rt: HostRuntime) -> Result<(), Fail> {
    reads(rt.alloc(), Form::Date, DATES)?;
    for line in lines_of(NO_DATES)? {
        is_no_date(line)?;
    }
    Ok(())
}

/// Dates, and what day they are, by `date -d DATE +%u` of the GNU core utilities.
const WEEKENDS: &str = "
'2000-01-01' = weekend
'2000-02-29' = weekday
'2024-02-29' = weekday
'2024-03-01' = weekday
'2024-03-02' = weekend
'2024-03-03' = weekend
'2024-03-04' = weekday
'2100-02-28' = weekend
'2100-03-01' = weekday
'2400-02-29' = weekday
'2999-12-28' = weekend
'2999-12-29' = weekend
'2999-12-31' = weekday
";

#[test]
fn the_weekend_is_the_calendars(rt: HostRuntime) -> Result<(), Fail> {
    reads(rt.alloc(), Form::Weekend, WEEKENDS)
}

/// Two dates, of which the first is the earlier.
const RISING_DATES: &str = "
2000-12-31 < 2001-01-01
2001-01-01 < 2001-01-31
2001-01-31 < 2001-02-01
";

// The first date of a line is the earlier.
fn rises(line: &str) -> Result<(), Fail> {
    let (earlier, later) = sides(line, " < ")?;
    if date(earlier)? < date(later)? {
        Ok(())
    } else {
        Err(Fail::new(line))
    }
}

#[test]
fn dates_rise(_rt: HostRuntime) -> Result<(), Fail> {
    for line in lines_of(RISING_DATES)? {
        rises(line)?;
    }
    Ok(())
}
