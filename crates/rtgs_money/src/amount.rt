//! What an order pays.
ghost use Rattle.std.specs.Prelude.{◌≡◌, ℕ, ◌≤◌, ◌↔◌, decimal, Some, IsSome, IfSome, IfOk, IfErr};
ghost use Rattle.std.specs.Fmt.{styled_decimal};
ghost use Rattle.rtgs_money.specs.Amounts.{IsAmount};

use crate::decimal::read_decimal;
use crate::lexical::Lexical;
use std::fmt;
use std::marker::Model;

/// What an order pays: 1 to 10^12 cents. Contracts see the number.
#[derive(Clone, Copy, Debug, PartialEq, Eq, PartialOrd, Ord)]
pub struct Amount {
    cents: u64,
}

impl Model for Amount {
    ghost Value = { ℕ };

    ghost view = { λ a. a.cents };

    ghost invariant = { λ a. IsAmount a.cents };

    ghost inverse = { λ n. record { cents = n } };
}

impl Amount {
    /// The greatest amount of an order.
    pub const MAX: u64 = 1_000_000_000_000;

    /// The amount of this many cents.
    pub fn new(cents: u64) -> Amount
        requires at_least_one { 1 ≤ cents }
        requires in_range { cents ≤ Amount.MAX }
        ensures { result ≡ cents }
    {
        Amount { cents }
    }

    /// The amount of this many cents, if an order may pay it.
    pub fn from_cents(cents: u64) -> Option<Amount>
        ensures valid { IsSome result ↔ IsAmount cents }
        ensures value { IfSome result (λ amount. amount ≡ cents) }
    {
        if cents == 0 || cents > Amount::MAX {
            return None;
        }
        Some(Amount::new(cents))
    }

    /// The amount that these bytes spell in whole cents: decimal digits, with no sign and no leading zero. Anything
    /// else is `BadAmount`.
    pub fn read(bytes: &[u8]) -> Result<Amount, Lexical>
        ensures value { IfOk result (λ amount. IsAmount amount × (bytes.now ≡ decimal amount)) }
        ensures found { (amount : ℕ) → IsAmount amount → bytes.now ≡ decimal amount → result ≡ Ok amount }
        ensures refused { IfErr result (λ refusal. refusal ≡ Lexical.BadAmount) }
    {
        read_decimal(bytes)
            .and_then(Amount::from_cents)
            .ok_or(Lexical::BadAmount)
    }

    /// The cents, of which there is at least one.
    pub fn cents(self) -> u64
        ensures value { result ≡ self }
        ensures at_least_one { 1 ≤ self }
        ensures in_range { self ≤ Amount.MAX }
    {
        self.cents
    }
}

impl fmt::Display for Amount {
    ghost output = { λ amount. Some (decimal amount) };

    ghost styled_output = { λ amount style. Some (styled_decimal style amount) };

    fn fmt<W: fmt::Write>(&self, f: &mut fmt::Formatter<W>) -> fmt::Result {
        fmt::Display::fmt(&self.cents, f)
    }
}
