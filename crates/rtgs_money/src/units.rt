//! Sums of cents, shown in units.
ghost use Rattle.std.specs.Prelude.{◌≡◌, ℤ, Some};
ghost use Rattle.std.specs.Fmt.{styled_text};
ghost use Rattle.rtgs_money.specs.Units.{units_text};

use crate::text::Text;
use itoa::Buffer;
use std::fmt;
use std::marker::Model;

/// A sum of cents, shown in units with two decimals. Contracts see the number of cents.
#[derive(Clone, Copy, Debug, PartialEq, Eq, PartialOrd, Ord)]
pub struct Units(i128);

impl Model for Units {
    ghost Value = { ℤ };

    ghost view = { λ units. units.0 };

    ghost inverse = { λ n. record { 0 = n } };
}

impl Units {
    /// A number of cents of a sum, which may be below zero.
    pub fn new(cents: i128) -> Units
        ensures { result ≡ cents }
    {
        Units(cents)
    }

    /// The number of cents.
    pub fn cents(self) -> i128
        ensures { result ≡ self }
    {
        self.0
    }

    /// The sum in units with two decimals, as `1234.56` or `-0.05`.
    #[tactic(auto, unfolding(crate::specs::Units::units_text))]
    pub fn text(self) -> Text<44>
        ensures { result ≡ units_text self }
    {
        let cents = self.0.unsigned_abs();
        let decimals = (cents % 100) as u8;
        let sign = if self.0 < 0 { "-" } else { "" };
        Text::new()
            .with(sign.as_bytes())
            .with(Buffer::new().format(cents / 100).as_bytes())
            .with(&[b'.', b'0' + decimals / 10, b'0' + decimals % 10])
    }
}

impl fmt::Display for Units {
    ghost output = { λ sum. Some (units_text sum) };

    ghost styled_output = { λ sum style. Some (styled_text style (units_text sum)) };

    fn fmt<W: fmt::Write>(&self, f: &mut fmt::Formatter<W>) -> fmt::Result {
        f.pad(self.text().as_str())
    }
}
