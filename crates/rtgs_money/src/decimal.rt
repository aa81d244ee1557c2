//! Whole numbers in decimal, in their one spelling: no leading zero, no plus sign, no minus zero.
ghost use Rattle.std.specs.Prelude.{◌≡◌, ◌<◌, ◌^◌, ℕ, ℤ, decimal, Some, IfSome, FitsSigned};
ghost use Rattle.std.specs.Int.{w64};
ghost use Rattle.std.specs.Fmt.{signed_decimal};

use itoa::Buffer;

/// The number whose digits these are.
pub(crate) fn read_decimal(bytes: &[u8]) -> Option<u64>
    ensures value { IfSome result (λ n. bytes.now ≡ decimal n) }
    ensures found { (n : ℕ) → n < 2 ^ 64 → bytes.now ≡ decimal n → result ≡ Some n }
{
    let text = str::from_utf8(bytes).ok()?;
    let n = text.parse::<u64>().ok()?;
    if Buffer::new().format(n).as_bytes() != bytes {
        return None;
    }
    Some(n)
}

/// The number whose digits these are, with a `-` before them below zero.
pub(crate) fn read_signed_decimal(bytes: &[u8]) -> Option<i64>
    ensures value { IfSome result (λ z. bytes.now ≡ signed_decimal z) }
    ensures found { (z : ℤ) → FitsSigned w64 z → bytes.now ≡ signed_decimal z → result ≡ Some z }
{
    let text = str::from_utf8(bytes).ok()?;
    let n = text.parse::<i64>().ok()?;
    if Buffer::new().format(n).as_bytes() != bytes {
        return None;
    }
    Some(n)
}
