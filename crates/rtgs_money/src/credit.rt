//! Credit limits.
ghost use Rattle.std.specs.Prelude.{◌≡◌, ℕ, ◌≤◌, ◌↔◌, decimal, Some, IsSome, IfSome, IfOk, IfErr};
ghost use Rattle.std.specs.Fmt.{styled_decimal};
ghost use Rattle.rtgs_money.specs.Amounts.{IsCredit};

use crate::decimal::read_decimal;
use crate::lexical::Lexical;
use std::fmt;
use std::marker::Model;

/// How far a participant may go below zero while the desk is open: 0 to 10^14 cents. Contracts see the number.
#[derive(Clone, Copy, Debug, PartialEq, Eq, PartialOrd, Ord)]
pub struct Credit {
    cents: u64,
}

impl Model for Credit {
    ghost Value = { ℕ };

    ghost view = { λ credit. credit.cents };

    ghost invariant = { λ credit. IsCredit credit.cents };

    ghost inverse = { λ n. record { cents = n } };
}

const _: () = prove!(Credit::NONE.cents == 0);

impl Credit {
    /// The greatest credit limit.
    pub const MAX: u64 = 100_000_000_000_000;

    pub const NONE: Credit = Credit { cents: 0 };

    /// The credit limit of this many cents, if a participant may have it.
    pub fn from_cents(cents: u64) -> Option<Credit>
        ensures valid { IsSome result ↔ IsCredit cents }
        ensures value { IfSome result (λ credit. credit ≡ cents) }
    {
        if cents > Credit::MAX {
            return None;
        }
        Some(Credit { cents })
    }

    /// The credit limit that these bytes spell in whole cents: decimal digits, with no sign and no leading zero.
    /// Anything else is `BadAmount`.
    pub fn read(bytes: &[u8]) -> Result<Credit, Lexical>
        ensures value { IfOk result (λ credit. IsCredit credit × (bytes.now ≡ decimal credit)) }
        ensures found { (credit : ℕ) → IsCredit credit → bytes.now ≡ decimal credit → result ≡ Ok credit }
        ensures refused { IfErr result (λ refusal. refusal ≡ Lexical.BadAmount) }
    {
        read_decimal(bytes)
            .and_then(Credit::from_cents)
            .ok_or(Lexical::BadAmount)
    }

    /// The credit limit in cents.
    pub fn cents(self) -> u64
        ensures value { result ≡ self }
        ensures in_range { self ≤ Credit.MAX }
    {
        self.cents
    }
}

impl fmt::Display for Credit {
    ghost output = { λ credit. Some (decimal credit) };

    ghost styled_output = { λ credit style. Some (styled_decimal style credit) };

    fn fmt<W: fmt::Write>(&self, f: &mut fmt::Formatter<W>) -> fmt::Result {
        fmt::Display::fmt(&self.cents, f)
    }
}
