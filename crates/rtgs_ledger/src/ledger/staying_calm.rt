//! Whether nothing that is queued can settle after a command, as it could not before.
ghost use Rattle.std.specs.Prelude.{◌≡◌, ◌↔◌, ◌≤◌, ◌<◌, ◌^◌, All, IfOk, IfSome, IsTrue, true, false, length};
ghost use Rattle.std.specs.Prelude.{slice_index};
ghost use Rattle.std.specs.Prelude.{◌+ℤ◌, ◌-ℤ◌, ◌<ℤ◌, ◌≤ℤ◌, ◌==◌, if◌then◌else◌, pos};
ghost use Rattle.rtgs_records.specs.Records.{core_in};
ghost use Rattle.std.specs.List.{AllByRecursion};
ghost use Rattle.rtgs_book.specs.declared.book.Book.{Book};
ghost use Rattle.rtgs_book.specs.Calm.{IsCalm};
ghost use Rattle.rtgs_book.specs.Changes.{Leads};
ghost use Rattle.rtgs_book.specs.cores.Cores.{IsCoreOf};
ghost use Rattle.rtgs_book.specs.cores.Following.{core_after, limited, rebalanced};
ghost use Rattle.rtgs_gridlock.specs.Slack.{AreAtMost, risen};
ghost use Rattle.rtgs_ledger.specs.Choosing.{position_at, positions_in};
ghost use Rattle.rtgs_ledger.specs.Limits.{AreLimitsOf, IsBelow, KeepsAccounts, LeaveCalm, account_after};
ghost use Rattle.rtgs_ledger.specs.Limits.{account_after_row, limit_at};

use super::Ledger;
use super::limits::Limits;
use super::lowering::{Lowering, lowering_by_rows};
use super::resolver_input::can_resolve;
use rtgs_book::{Account, Change, MOST_QUEUED, Participant, RowChange};
use rtgs_choices::laws::calm_means_calm;
use rtgs_gridlock::{OutOfMemory, Workspace, calm_below_limits, greatest};
use rtgs_laws::laws::quiet_changes_leave_calm;
use rtgs_money::{Cents, Code, Credit};
use rtgs_records::Records;
use rtgs_records::queues::laws::queues_are_of_the_waiting;
use std::alloc::AllocError;

impl Ledger {
    /// Whether nothing can settle after the rows, as it could not before. Where neither the limits that are known nor
    /// the rows themselves tell, the limits are found again, by one resolution of the book before the rows.
    pub(super) fn stays_calm(&mut self, change: &Change) -> bool
        ensures same { self.new ≡ self.old }
        ensures calm { (old new : Book) → IsCoreOf old self.old.core → Leads old change.now new
            → IsCoreOf new (core_after self.old.core change.now) → result ≡ true → IsCalm old → IsCalm new }
    {
        calm_means_calm();
        queues_are_of_the_waiting();
        quiet_changes_leave_calm();
        let rows = change.as_slice();
        if self.stays_below(rows) {
            return true;
        }
        if !self.can_free(change) {
            return true;
        }
        if change_accounts(rows) || lowering_by_rows(&self.records, rows).is_none() {
            return false;
        }
        if self.has_fresh_limits() {
            return false;
        }
        self.find_limits();
        self.stays_below(rows)
    }

    // Whether the limits are those that a resolution of the book would find, as far as can be told without one: it
    // found them, no row has lowered them since, and no headroom has reached its limit.
    fn has_fresh_limits(&self) -> bool {
        self.limits.fresh && self.stays_below(&[])
    }

    // Whether each headroom is below its limit after the rows.
    fn stays_below(&self, rows: &[RowChange]) -> bool
        ensures { result ≡ true → LeaveCalm self.now.core rows.now }
    {
        self.limits.leave_calm(&self.records, rows)
    }

    // Finds the limits again, by a resolution. They stay unknown where something could settle, and where memory was
    // refused.
    fn find_limits(&mut self)
        ensures { self.new ≡ self.old }
    {
        self.limits = self.limits_or_none();
    }

    // The limits as a resolution finds them, and none where memory was refused.
    fn limits_or_none(&self) -> Limits
        ensures { AreLimitsOf self.now.core result }
    {
        match self.limits_now() {
            Ok(limits) => limits,
            Err(_) => Limits::unknown(self.alloc),
        }
    }

    // The limits as a resolution finds them.
    fn limits_now(&self) -> Result<Limits, OutOfMemory>
        ensures { IfOk result (λ limits. AreLimitsOf self.now.core limits) }
    {
        calm_below_limits();
        let positions = self.positions()?;
        let queues = self.payments()?;
        if !can_resolve(&positions, &queues) {
            return Ok(Limits::unknown(self.alloc));
        }
        let mut workspace = Workspace::reserve(self.alloc, queues.len(), MOST_QUEUED)?;
        greatest(&positions, &queues, &mut workspace);
        if !are_zero(workspace.lengths()) {
            return Ok(Limits::unknown(self.alloc));
        }
        let list = self.limits_from(workspace.slacks())?;
        Ok(Limits {
            known: true,
            fresh: true,
            list,
        })
    }

    // The headrooms with these slacks on top.
    fn limits_from(&self, slacks: &[u64]) -> Result<Vec<i128>, AllocError>
        requires { length self.now.core.accounts ≤ length slacks.now }
        ensures { IfOk result (λ limits. AreAtMost (length self.now.core.accounts) (limit_at limits.items)
            (risen (positions_in self.now.core) (slice_index slacks.now))) }
    {
        let mut limits = Vec::new(self.alloc);
        for (index, account) in self.records.accounts.as_slice().iter().enumerate() {
            limits.push(raised(headroom(&self.records, account), slacks[index]))?;
        }
        Ok(limits)
    }
}

impl Limits {
    // Whether nothing can settle after the rows of the records, since each headroom is below its limit then.
    fn leave_calm(&self, records: &Records, rows: &[RowChange]) -> bool
        ensures { AreLimitsOf (core_in records.now) self.now → result ≡ true
            → LeaveCalm (core_in records.now) rows.now }
    {
        calm_below_limits();
        if !self.known || change_accounts(rows) {
            return false;
        }
        let Some(lowering) = lowering_by_rows(records, rows) else {
            return false;
        };
        for (index, account) in records.accounts.as_slice().iter().enumerate() {
            let after = account_after(account, rows);
            if !self.allow(index, headroom(records, &after), &lowering) {
                return false;
            }
        }
        true
    }

    // Whether the headroom is below the limit at this index, once it is lowered so.
    fn allow(&self, index: usize, headroom: i128, lowering: &Lowering) -> bool
        requires low { pos 0 ≤ℤ (headroom +ℤ pos (2 ^ 100)) }
        requires high { headroom ≤ℤ pos (2 ^ 100) }
        ensures { result ≡ true → IsBelow self.now.list.items lowering.now index headroom }
    {
        if !lacks_the_first(index, headroom, lowering) {
            return false;
        }
        self.exceeds(index, with_fall(headroom, lowering, index))
    }

    // Whether the limit at this index is above the headroom.
    fn exceeds(&self, index: usize, headroom: i128) -> bool
        ensures { result ≡ true → headroom <ℤ limit_at self.now.list.items index }
    {
        let Some(limit) = self.list.get(index) else {
            return false;
        };
        headroom < *limit
    }
}

// Whether the account at this index lacks the cents, if the first order of its queue asks for them.
fn lacks_the_first(index: usize, headroom: i128, lowering: &Lowering) -> bool
    ensures { result ≡ true → IfSome lowering.now.begins (λ s. s ≡ index → headroom <ℤ pos lowering.now.cents) }
{
    let Some(sender) = lowering.begins else {
        return true;
    };
    sender != index || headroom < i128::from(lowering.cents)
}

// How far the account's balance is above its floor on the day of the records.
fn headroom(records: &Records, account: &Account) -> i128
    ensures value { result ≡ (position_at records.now.day.phase account.now).balance
        -ℤ (position_at records.now.day.phase account.now).floor }
    ensures low { pos 0 ≤ℤ (result +ℤ pos (2 ^ 100)) }
    ensures high { result ≤ℤ pos (2 ^ 100) }
{
    i128::from(account.balance.cents()) - i128::from(records.floor(account))
}

// Whether one of the rows may change the day, or more of the accounts than balances and credit limits.
fn change_accounts(rows: &[RowChange]) -> bool
    ensures { result ≡ false → AllByRecursion KeepsAccounts rows.now }
{
    for row in rows {
        if changes_accounts(row) {
            return true;
        }
    }
    false
}

fn changes_accounts(row: &RowChange) -> bool
    ensures { result ≡ false → KeepsAccounts row.now }
{
    matches!(row, RowChange::AddParticipant(_) | RowChange::SetDay(_))
}

// The account as the rows leave it, where they leave the accounts in other ways.
fn account_after(account: &Account, rows: &[RowChange]) -> Account
    ensures { result ≡ account_after rows.now account.now }
{
    let mut after = *account;
    for row in rows {
        after = account_after_row(after, row);
    }
    after
}

fn account_after_row(account: Account, row: &RowChange) -> Account
    ensures { result ≡ account_after_row row.now account }
{
    match row {
        RowChange::SetCredit { code, credit } => limited(account, code, *credit),
        RowChange::SetBalance { code, balance } => rebalanced(account, code, *balance),
        _ => account,
    }
}

// The account with this limit, if it is that of the code.
fn limited(account: Account, code: &Code, credit: Credit) -> Account
    ensures { result ≡ limited code.now credit account }
{
    if account.participant.code == *code {
        let participant = Participant {
            credit,
            ..account.participant
        };
        return Account {
            participant,
            balance: account.balance,
        };
    }
    account
}

// The account with this balance, if it is that of the code.
fn rebalanced(account: Account, code: &Code, balance: Cents) -> Account
    ensures { result ≡ rebalanced code.now balance account }
{
    if account.participant.code == *code {
        return Account {
            participant: account.participant,
            balance,
        };
    }
    account
}

fn are_zero(lengths: &[usize]) -> bool
    ensures { IsTrue result ↔ All (λ length. length ≡ 0) lengths.now }
{
    lengths.iter().all(|length| *length == 0)
}

// The headroom with the slack on top.
fn raised(headroom: i128, slack: u64) -> i128
    requires low { pos 0 ≤ℤ (headroom +ℤ pos (2 ^ 100)) }
    requires high { headroom ≤ℤ pos (2 ^ 100) }
    ensures { result ≡ (headroom +ℤ pos slack) }
{
    headroom + i128::from(slack)
}

// The headroom, with the cents on top where the limit at this index falls by them.
fn with_fall(headroom: i128, lowering: &Lowering, index: usize) -> i128
    requires low { pos 0 ≤ℤ (headroom +ℤ pos (2 ^ 100)) }
    requires high { headroom ≤ℤ pos (2 ^ 100) }
    ensures value { result ≡ (headroom +ℤ pos (if lowering.now.index == index then lowering.now.cents else 0)) }
    ensures low { pos 0 ≤ℤ (result +ℤ pos (2 ^ 101)) }
    ensures high { result ≤ℤ pos (2 ^ 101) }
{
    if lowering.index == index {
        headroom + i128::from(lowering.cents)
    } else {
        headroom
    }
}
