//! Business dates.
ghost use Rattle.std.specs.Prelude.{◌≡◌, ℕ, ◌+◌, ◌-◌, ◌%◌, ◌<◌, ◌^◌, ◌↔◌, Some, IsSome, IfSome, IfOk, IfErr};
ghost use Rattle.std.specs.Fmt.{styled_text};
ghost use Rattle.rtgs_money.specs.Date.{is_weekend, date_text, IsBusinessDate};

use crate::lexical::Lexical;
use crate::text::Text;
use jiff::civil::{self, Date, Weekday};
use std::fmt;
use std::marker::Model;

/// A date of the years `FIRST_YEAR` to `LAST_YEAR` of the Gregorian calendar. Contracts see the number YYYYMMDD.
#[derive(Clone, Copy, Debug, PartialEq, Eq, PartialOrd, Ord)]
pub struct BusinessDate {
    number: u32,
}

impl Model for BusinessDate {
    ghost Value = { ℕ };

    ghost view = { λ date. date.number };

    ghost invariant = { λ date. IsBusinessDate date.number };

    ghost inverse = { λ n. record { number = n } };
}

impl BusinessDate {
    /// The first year that the desk serves.
    pub const FIRST_YEAR: u32 = 2000;

    /// The last year that the desk serves.
    pub const LAST_YEAR: u32 = 2999;

    /// The date with this number YYYYMMDD, if the calendar has it in the years that the desk serves.
    pub fn from_number(number: u32) -> Option<BusinessDate>
        ensures valid { IsSome result ↔ IsBusinessDate number }
        ensures value { IfSome result (λ date. date ≡ number) }
    {
        let year = number / 10_000;
        if year < BusinessDate::FIRST_YEAR || year > BusinessDate::LAST_YEAR {
            return None;
        }
        let month = (number / 100 % 100) as i8;
        let day = (number % 100) as i8;
        Date::new(year as i16, month, day).ok()?;
        Some(BusinessDate { number })
    }

    /// The date that these bytes spell as YYYY-MM-DD. Anything else is `BadDate`.
    pub fn read(bytes: &[u8]) -> Result<BusinessDate, Lexical>
        ensures value { IfOk result (λ date. IsBusinessDate date × (bytes.now ≡ date_text date)) }
        ensures found { (date : ℕ) → IsBusinessDate date → bytes.now ≡ date_text date → result ≡ Ok date }
        ensures refused { IfErr result (λ refusal. refusal ≡ Lexical.BadDate) }
    {
        let number = digits_in(bytes).ok_or(Lexical::BadDate)?;
        let date = BusinessDate::from_number(number).ok_or(Lexical::BadDate)?;
        if date.text().as_bytes() != bytes {
            return Err(Lexical::BadDate);
        }
        Ok(date)
    }

    /// The number YYYYMMDD.
    pub fn number(self) -> u32
        ensures value { result ≡ self }
        ensures in_range { IsBusinessDate self }
    {
        self.number
    }

    /// Saturday or Sunday.
    pub fn is_weekend(self) -> bool
        ensures { result ≡ is_weekend self }
    {
        let year = (self.number / 10_000) as i16;
        let month = (self.number / 100 % 100) as i8;
        let day = (self.number % 100) as i8;
        let weekday = civil::date(year, month, day).weekday();
        matches!(weekday, Weekday::Saturday | Weekday::Sunday)
    }

    /// The date as YYYY-MM-DD.
    #[tactic(auto, unfolding(crate::specs::Date::date_text))]
    pub fn text(self) -> Text<10>
        ensures { result ≡ date_text self }
    {
        let year = self.number / 10_000;
        let month = self.number / 100 % 100;
        let day = self.number % 100;
        Text::new().with(&[
            last_digit(year / 1000),
            last_digit(year / 100),
            last_digit(year / 10),
            last_digit(year),
            b'-',
            last_digit(month / 10),
            last_digit(month),
            b'-',
            last_digit(day / 10),
            last_digit(day),
        ])
    }
}

// The last decimal digit, as a character.
fn last_digit(n: u32) -> u8
    ensures { result ≡ 48 + n % 10 }
{
    b'0' + (n % 10) as u8
}

// The number YYYYMMDD in a text YYYY-MM-DD. Of other texts of ten characters it is any number.
#[tactic(auto, unfolding(crate::specs::Date::date_text))]
fn digits_in(bytes: &[u8]) -> Option<u32>
    ensures { (date : ℕ) → date < 10 ^ 8 → bytes.now ≡ date_text date → result ≡ Some date }
{
    let [y1, y2, y3, y4, _, m1, m2, _, d1, d2] = bytes else {
        return None;
    };
    let year = value_of(*y1) * 1000 + value_of(*y2) * 100 + value_of(*y3) * 10 + value_of(*y4);
    let month = value_of(*m1) * 10 + value_of(*m2);
    let day = value_of(*d1) * 10 + value_of(*d2);
    Some(year * 10_000 + month * 100 + day)
}

// The value of a character that is a digit.
fn value_of(digit: u8) -> u32
    ensures { result ≡ digit - 48 }
{
    u32::from(digit.saturating_sub(b'0'))
}

impl fmt::Display for BusinessDate {
    ghost output = { λ date. Some (date_text date) };

    ghost styled_output = { λ date style. Some (styled_text style (date_text date)) };

    fn fmt<W: fmt::Write>(&self, f: &mut fmt::Formatter<W>) -> fmt::Result {
        f.pad(self.text().as_str())
    }
}
