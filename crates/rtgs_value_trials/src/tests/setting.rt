//! Codes and dates of small books.
use rtgs_money::{BusinessDate, Code};
use std::test::Fail;

/// The day on which most happens.
pub const MONDAY: &str = "2024-03-04";

/// The day after it.
pub const TUESDAY: &str = "2024-03-05";

/// The code of this text.
pub fn code(text: &str) -> Result<Code, Fail> {
    Ok(Code::read(text.as_bytes())?)
}

/// The date of this text, as 2024-03-04.
pub fn date(text: &str) -> Result<BusinessDate, Fail> {
    Ok(BusinessDate::read(text.as_bytes())?)
}
