//! Lengths in digits.
ghost use Rattle.std.specs.Prelude.{◌≡◌, None, IfSome};
ghost use Rattle.std.specs.Str.Parse.{digits_value};
ghost use Rattle.rtgs_http_requests.specs.heads.Fields.{IsShortNumber};

use crate::heads::limits::MOST_DIGITS;

/// The number that these 1 to `MOST_DIGITS` digits are; none of any other bytes.
pub fn read_number(digits: &[u8]) -> Option<u32>
    ensures value { IfSome result (λ n. IsShortNumber digits.now × (n ≡ digits_value 10 digits.now)) }
    ensures none { result ≡ None → ¬ IsShortNumber digits.now }
{
    if digits.len() > MOST_DIGITS || digits.first() == Some(&b'+') {
        return None;
    }
    let text = str::from_utf8(digits).ok()?;
    text.parse::<u32>().ok()
}
