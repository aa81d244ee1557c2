//! What a posting adds or takes.
ghost use Rattle.std.specs.Prelude.{◌≡◌, ◌≢◌, ℤ, pos, ◌≤◌, ◌↔◌, ◌∷◌, unsigned_abs, Some, IsSome, IfSome, IfOk, IfErr};
ghost use Rattle.std.specs.Fmt.{signed_decimal, styled_signed_decimal};
ghost use Rattle.rtgs_money.specs.Amounts.{IsPostingAmount};

use crate::decimal::{read_decimal, read_signed_decimal};
use crate::lexical::Lexical;
use std::fmt;
use std::marker::Model;

/// What a posting adds to an account or, below zero, takes from it: at most 10^15 cents either way, and not zero.
/// Contracts see the number.
#[derive(Clone, Copy, Debug, PartialEq, Eq, PartialOrd, Ord)]
pub struct PostingAmount {
    cents: i64,
}

impl Model for PostingAmount {
    ghost Value = { ℤ };

    ghost view = { λ a. a.cents };

    ghost invariant = { λ a. IsPostingAmount a.cents };

    ghost inverse = { λ n. record { cents = n } };
}

impl PostingAmount {
    /// The greatest magnitude of a posting.
    pub const MAX: u64 = 1_000_000_000_000_000;

    /// The posting of this many cents, if there may be one.
    pub fn from_cents(cents: i64) -> Option<PostingAmount>
        ensures valid { IsSome result ↔ IsPostingAmount cents }
        ensures value { IfSome result (λ posting. posting ≡ cents) }
    {
        if cents == 0 || cents.unsigned_abs() > PostingAmount::MAX {
            return None;
        }
        Some(PostingAmount { cents })
    }

    /// The posting that these bytes spell in whole cents: decimal digits with no leading zero, and a `-` before them
    /// below zero. Anything else is `BadAmount`.
    pub fn read(bytes: &[u8]) -> Result<PostingAmount, Lexical>
        ensures value { IfOk result (λ posting. IsPostingAmount posting × (bytes.now ≡ signed_decimal posting)) }
        ensures found { (posting : ℤ) → IsPostingAmount posting
            → bytes.now ≡ signed_decimal posting → result ≡ Ok posting }
        ensures refused { IfErr result (λ refusal. refusal ≡ Lexical.BadAmount) }
    {
        read_signed_decimal(bytes)
            .and_then(PostingAmount::from_cents)
            .ok_or(Lexical::BadAmount)
    }

    /// The posting that takes as many cents as these bytes spell: decimal digits, with no sign and no leading zero. So
    /// it is the one that is spelled by `-` and these bytes. Anything else is `BadAmount`.
    pub fn read_debit(bytes: &[u8]) -> Result<PostingAmount, Lexical>
        ensures value { IfOk result (λ posting. IsPostingAmount posting × (45 ∷ bytes.now ≡ signed_decimal posting)) }
        ensures found { (posting : ℤ) → IsPostingAmount posting
            → 45 ∷ bytes.now ≡ signed_decimal posting → result ≡ Ok posting }
        ensures refused { IfErr result (λ refusal. refusal ≡ Lexical.BadAmount) }
    {
        let Some(cents) = read_decimal(bytes) else {
            return Err(Lexical::BadAmount);
        };
        if cents == 0 || cents > PostingAmount::MAX {
            return Err(Lexical::BadAmount);
        }
        Ok(PostingAmount {
            cents: -(cents as i64),
        })
    }

    /// The cents: above zero where they are added to the account, and below where they are taken.
    pub fn cents(self) -> i64
        ensures value { result ≡ self }
        ensures not_zero { self ≢ pos 0 }
        ensures in_range { unsigned_abs self ≤ PostingAmount.MAX }
    {
        self.cents
    }
}

impl fmt::Display for PostingAmount {
    ghost output = { λ posting. Some (signed_decimal posting) };

    ghost styled_output = { λ posting style. Some (styled_signed_decimal style posting) };

    fn fmt<W: fmt::Write>(&self, f: &mut fmt::Formatter<W>) -> fmt::Result {
        fmt::Display::fmt(&self.cents, f)
    }
}
