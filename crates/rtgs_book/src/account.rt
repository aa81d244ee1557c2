//! A participant with its balance.
ghost use Rattle.std.specs.Prelude.{◌≡◌, ◌+ℤ◌, ◌-ℤ◌, pos, FitsSigned};
ghost use Rattle.std.specs.Int.{w64};
ghost use Rattle.rtgs_book.specs.Accounts.{is_overdrawn};

use crate::participant::Participant;
use rtgs_money::{Amount, Cents, PostingAmount};

/// A participant and its balance.
#[derive(Clone, Copy, Debug, PartialEq, Eq)]
pub struct Account {
    pub participant: Participant,
    pub balance: Cents,
}

impl Account {
    /// Whether the balance is below zero.
    pub fn is_overdrawn(&self) -> bool
        ensures { result ≡ is_overdrawn self.now }
    {
        self.balance.cents() < 0
    }

    /// The balance after a posting.
    pub fn balance_with(&self, cents: PostingAmount) -> Cents
        requires { FitsSigned w64 (self.now.balance +ℤ cents) }
        ensures { result ≡ self.now.balance +ℤ cents }
    {
        Cents::new(self.balance.cents() + cents.cents())
    }

    /// The balance with this number of cents more, or less where they are below zero.
    pub fn balance_moved(&self, cents: i64) -> Cents
        requires { FitsSigned w64 (self.now.balance +ℤ cents) }
        ensures { result ≡ self.now.balance +ℤ cents }
    {
        Cents::new(self.balance.cents() + cents)
    }

    /// The balance after an order of the participant is settled.
    pub fn balance_less(&self, amount: Amount) -> Cents
        requires { FitsSigned w64 (self.now.balance -ℤ pos amount) }
        ensures { result ≡ self.now.balance -ℤ pos amount }
    {
        Cents::new(self.balance.cents() - amount.cents() as i64)
    }

    /// The balance after an order to the participant is settled.
    pub fn balance_more(&self, amount: Amount) -> Cents
        requires { FitsSigned w64 (self.now.balance +ℤ pos amount) }
        ensures { result ≡ self.now.balance +ℤ pos amount }
    {
        Cents::new(self.balance.cents() + amount.cents() as i64)
    }
}
