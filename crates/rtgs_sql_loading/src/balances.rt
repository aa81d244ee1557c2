//! Stored balances against the sums from scratch.
ghost use Rattle.std.specs.Prelude.{◌≡◌, ◌↔◌, map, IfOk, IsTrue};
ghost use Rattle.std.specs.List.{list_all};
ghost use Rattle.rtgs_book.specs.Judgement.{KeepsBefore};
ghost use Rattle.rtgs_book.specs.declared.account.Account.{Account as AccountSpec};
ghost use Rattle.rtgs_rows.specs.Keeping.{AreBalances};
ghost use Rattle.rtgs_sql_loading.specs.Accounts.{is_stored as is_stored_in};

use rtgs_book::{Account, Book, Rule};
use rtgs_money::Code;
use rtgs_soundness::balances;
use std::alloc::AllocError;
use std::collections::BTreeMap;

/// Whether each stored balance is the sum of the account's postings and settled orders.
pub(crate) fn balances_agree(accounts: &[Account], book: &Book) -> Result<bool, AllocError>
    requires kept { KeepsBefore book.now Rule.StoredBalances }
    requires participants { book.now.participants ≡ map (λ (a : AccountSpec). a.participant) accounts.now }
    ensures { IfOk result (λ yes. IsTrue yes ↔ AreBalances book.now accounts.now) }
{
    let balances = balances(book)?;
    Ok(are_stored(&balances, accounts))
}

/// Whether each account stores the balance that the map has under its code.
fn are_stored(balances: &BTreeMap<Code, i128>, accounts: &[Account]) -> bool
    ensures { result ≡ list_all (is_stored_in balances.now) accounts.now }
{
    accounts.iter().all(|account| is_stored(balances, account))
}

/// Whether the account stores the balance that the map has under its code.
fn is_stored(balances: &BTreeMap<Code, i128>, account: &Account) -> bool
    ensures { result ≡ is_stored_in balances.now account.now }
{
    match balances.get(&account.participant.code) {
        Some(balance) => *balance == i128::from(account.balance.cents()),
        None => false,
    }
}
