//! Accounts in the order of their codes.
ghost use Rattle.std.specs.Prelude.{◌≡◌, ◌-◌, ◌≤◌, ◌<◌, ◌^◌, ◌+ℤ◌, [], ℤ, length, map, filter, false, Some, None};
ghost use Rattle.std.specs.Prelude.{OnOk, IfOk, IfErr, FitsSigned, slice_get};
ghost use Rattle.std.specs.Int.{w64};
ghost use Rattle.std.specs.List.{find, list_any, position_or_len, AllByRecursion};
ghost use Rattle.std.specs.Str.{bytes_eq};
ghost use Rattle.rtgs_money.specs.Amounts.{IsAmount};
ghost use Rattle.rtgs_book.specs.declared.limits.TheConstants.{MOST_PARTICIPANTS};
ghost use Rattle.rtgs_book.specs.Totals.{Within};
ghost use Rattle.rtgs_book.specs.IntSum.{int_sum_by};
ghost use Rattle.rtgs_book.specs.Accounts.{is_overdrawn};
ghost use Rattle.rtgs_records.specs.accounts.Accounts.{AreOfABook, IsAt, IsGapFor, is_of, code_of, key_of};
ghost use Rattle.rtgs_records.specs.accounts.Accounts.{balance_of, has_key, with_account, with_balance, with_move};
ghost use Rattle.rtgs_records.specs.accounts.Accounts.{with_limit, after_order};

use crate::accounts::sums::moved;
use rtgs_book::{Account, Order, Rows};
use rtgs_money::{Cents, Code, Credit, KeyDigest};
use std::alloc::{AllocError, Global};
use std::marker::Model;

/// The accounts in code order. Contracts see them, and how many more there is room for.
#[derive(Debug, Drop)]
pub struct Accounts {
    accounts: Vec<Account>,
}

impl Model for Accounts {
    ghost use Rattle.rtgs_records.specs.accounts.Accounts.{AccountList, AreOfABook};
    ghost use Rattle.std.specs.Prelude.{◌-◌, vec_len};
    ghost use Rattle.std.specs.Vec.{vec_capacity};

    ghost Value = { AccountList };

    ghost view = { λ a. record { accounts = a.accounts.items; room = vec_capacity a.accounts - vec_len a.accounts } };

    ghost invariant = { λ a. AreOfABook a.accounts.items };
}

impl Accounts {
    /// These accounts, in code order.
    pub fn load(accounts: Rows<Account>) -> Accounts
        requires { AreOfABook accounts }
        ensures { result.accounts ≡ accounts }
    {
        Accounts {
            accounts: accounts.into_vec(),
        }
    }

    /// The same accounts once more.
    pub fn copy(&self) -> Result<Accounts, AllocError>
        ensures { IfOk result (λ copy. copy.accounts ≡ self.now.accounts) }
    {
        let accounts = Vec::from_slice(*self.accounts.allocator(), self.accounts.as_slice())?;
        Ok(Accounts { accounts })
    }

    /// The accounts in code order.
    pub fn as_slice(&self) -> &[Account]
        ensures value { result.now ≡ self.now.accounts }
        ensures of_a_book { AreOfABook self.now.accounts }
    {
        self.accounts.as_slice()
    }

    /// How many accounts there are.
    pub fn len(&self) -> usize
        ensures { result ≡ length self.now.accounts }
    {
        self.accounts.len()
    }

    /// The code at this place, in order; past the last there is none.
    pub fn code_at(&self, index: usize) -> Option<Code>
        ensures { result ≡ slice_get (map code_of self.now.accounts) index }
    {
        if index < self.accounts.len() {
            Some(self.accounts[index].participant.code)
        } else {
            None
        }
    }

    /// The account with this code, if there is one.
    pub fn get(&self, code: &Code) -> Option<Account>
        ensures { result ≡ find (is_of code.now) self.now.accounts }
    {
        match self.search(code) {
            Ok(at) => Some(self.accounts[at]),
            Err(_) => None,
        }
    }

    /// The index of the account with this code, and else how many accounts there are.
    pub fn index_of(&self, code: &Code) -> usize
        ensures { result ≡ position_or_len (bytes_eq code.now) (map code_of self.now.accounts) }
    {
        match self.search(code) {
            Ok(at) => at,
            Err(_) => self.accounts.len(),
        }
    }

    /// Whether an account has this key.
    pub fn has_key(&self, key: &KeyDigest) -> bool
        ensures { result ≡ list_any (has_key key.now) self.now.accounts }
    {
        self.accounts.iter().any(|a| a.participant.key == *key)
    }

    /// The first account with this key, if there is one.
    pub fn bearer(&self, key: &KeyDigest) -> Option<Account>
        ensures { result ≡ find (has_key key.now) self.now.accounts }
    {
        self.accounts
            .iter()
            .copied()
            .find(|a| a.participant.key == *key)
    }

    /// All balances together, in cents.
    pub fn total(&self) -> i128
        ensures { result ≡ int_sum_by balance_of self.now.accounts }
    {
        let mut total = 0i128;
        for account in &self.accounts {
            total += i128::from(account.balance.cents());
        }
        total
    }

    /// How many accounts are below zero.
    pub fn overdrawn(&self) -> usize
        ensures { result ≡ length (filter is_overdrawn self.now.accounts) }
    {
        self.accounts.iter().filter(|a| a.is_overdrawn()).count()
    }

    /// The first account, in code order, that is below zero.
    pub fn first_overdrawn(&self) -> Option<Account>
        ensures { result ≡ find is_overdrawn self.now.accounts }
    {
        self.accounts.iter().copied().find(Account::is_overdrawn)
    }

    /// Makes room for one account more.
    pub fn reserve(&mut self) -> Result<(), AllocError>
        ensures same { self.new.accounts ≡ self.old.accounts }
        ensures ok { OnOk result (1 ≤ self.new.room) }
    {
        self.accounts.reserve(1)
    }

    /// Adds an account, in the room that was made for it.
    pub fn insert(&mut self, account: Account)
        requires absent { find (is_of (code_of account)) self.old.accounts ≡ None }
        requires unused { list_any (has_key (key_of account)) self.old.accounts ≡ false }
        requires few { length self.old.accounts < MOST_PARTICIPANTS }
        requires room { 1 ≤ self.old.room }
        ensures accounts { self.new.accounts ≡ with_account account self.old.accounts }
        ensures room { self.new.room ≡ self.old.room - 1 }
    {
        match self.search(&account.participant.code) {
            Ok(_) => unreachable!(),
            Err(at) => self.accounts.insert(at, account).unwrap(),
        }
    }

    /// Sets the balance of the account with this code.
    pub fn set_balance(&mut self, code: &Code, balance: Cents)
        ensures accounts { self.new.accounts ≡ with_balance code.now balance self.old.accounts }
        ensures room { self.new.room ≡ self.old.room }
    {
        match self.search(code) {
            Ok(at) => self.accounts[at].balance = balance,
            Err(_) => {}
        }
    }

    /// Moves the amount of an order from the balance of its sender to that of its receiver.
    pub fn settle(&mut self, order: &Order)
        ensures accounts { AllByRecursion (λ a. Within (10 ^ 18) a.balance) self.old.accounts
            → self.new.accounts ≡ map (after_order order.now) self.old.accounts }
        ensures count { length self.new.accounts ≡ length self.old.accounts }
        ensures amount { IsAmount order.now.amount }
    {
        let cents = order.amount.cents() as i64;
        self.move_balance(&order.sender, -cents);
        self.move_balance(&order.receiver, cents);
    }

    // Adds to the balance of the account with this code, as far as it goes.
    fn move_balance(&mut self, code: &Code, cents: i64)
        ensures moved { AllByRecursion (λ a. FitsSigned w64 (a.balance +ℤ cents)) self.old.accounts
            → self.new.accounts ≡ with_move code.now cents self.old.accounts }
        ensures count { length self.new.accounts ≡ length self.old.accounts }
    {
        match self.search(code) {
            Ok(at) => self.accounts[at].balance = moved(self.accounts[at].balance, cents),
            Err(_) => {}
        }
    }

    /// Sets the credit limit of the account with this code.
    pub fn set_credit(&mut self, code: &Code, credit: Credit)
        ensures accounts { self.new.accounts ≡ with_limit code.now credit self.old.accounts }
        ensures room { self.new.room ≡ self.old.room }
    {
        match self.search(code) {
            Ok(at) => self.accounts[at].participant.credit = credit,
            Err(_) => {}
        }
    }

    // Where the account with this code is, or where it would go.
    fn search(&self, code: &Code) -> Result<usize, usize>
        ensures found { IfOk result (IsAt code.now self.now.accounts) }
        ensures absent { IfErr result (IsGapFor code.now self.now.accounts) }
    {
        self.accounts
            .binary_search_by_key(code, |account| account.participant.code)
    }
}
