//! Balances.
ghost use Rattle.std.specs.Prelude.{◌≡◌, ℤ};

use crate::units::Units;
use std::marker::Model;

/// A balance in cents. Contracts see the number.
#[derive(Clone, Copy, Debug, PartialEq, Eq, PartialOrd, Ord)]
pub struct Cents(i64);

impl Model for Cents {
    ghost Value = { ℤ };

    ghost view = { λ cents. cents.0 };

    ghost inverse = { λ n. record { 0 = n } };
}

impl Cents {
    /// A number of cents, which may be below zero.
    pub fn new(cents: i64) -> Cents
        ensures { result ≡ cents }
    {
        Cents(cents)
    }

    /// The number of cents.
    pub fn cents(self) -> i64
        ensures { result ≡ self }
    {
        self.0
    }

    /// The same cents, to be shown in units with two decimals.
    pub fn units(self) -> Units
        ensures { result ≡ self }
    {
        Units::new(i128::from(self.0))
    }
}
