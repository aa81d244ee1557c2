//! Sums of cents that stop at the ends of their range. In a sound book none gets there.
ghost use Rattle.std.specs.Prelude.{◌≡◌, ◌+ℤ◌, ◌-ℤ◌, pos, FitsSigned};
ghost use Rattle.std.specs.Int.{w64};

use rtgs_money::{Amount, Cents};

/// The balance with this many cents more, or less where they are below zero.
pub fn moved(balance: Cents, cents: i64) -> Cents
    ensures { FitsSigned w64 (balance +ℤ cents) → result ≡ balance +ℤ cents }
{
    Cents::new(balance.cents().saturating_add(cents))
}

/// The balance after an order to the participant is settled.
pub fn with_more(balance: Cents, amount: Amount) -> Cents
    ensures { FitsSigned w64 (balance +ℤ pos amount) → result ≡ balance +ℤ pos amount }
{
    Cents::new(balance.cents().saturating_add(amount.cents() as i64))
}

/// The balance after an order of the participant is settled.
pub fn with_less(balance: Cents, amount: Amount) -> Cents
    ensures { FitsSigned w64 (balance -ℤ pos amount) → result ≡ balance -ℤ pos amount }
{
    Cents::new(balance.cents().saturating_sub(amount.cents() as i64))
}
