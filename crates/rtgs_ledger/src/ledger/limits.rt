//! Below which limits nothing that is queued can settle.
ghost use Rattle.std.specs.Prelude.{◌≡◌, ◌+ℤ◌, ◌≤ℤ◌, ◌==◌, ℕ, List, [], true, false, pos, IfSome, if◌then◌else◌};
ghost use Rattle.rtgs_book.specs.declared.cores.cores.Core.{Core};
ghost use Rattle.rtgs_book.specs.cores.Following.{core_after_row};
ghost use Rattle.rtgs_gridlock.specs.declared.queues.Payment.{Payment};
ghost use Rattle.rtgs_gridlock.specs.Choices.{queue_of};
ghost use Rattle.rtgs_gridlock.specs.Slack.{IsCeiling};
ghost use Rattle.rtgs_records.specs.Records.{core_in};
ghost use Rattle.rtgs_ledger.specs.Limits.{AreLimitsOf, Lowers, limit_at};

use super::lowering::{Lowering, lowering_by};
use rtgs_book::RowChange;
use rtgs_gridlock::no_queue_no_limit;
use rtgs_records::Records;
use std::alloc::Global;

/// What the headroom of each account, its balance above its floor, has to stay below so that nothing that is queued
/// can settle, in code order. They are those of the queues as they are, where they are known.
#[derive(Debug, Drop)]
pub(super) struct Limits {
    pub(super) known: bool,
    /// Whether a resolution found them, and no row has lowered them since.
    pub(super) fresh: bool,
    pub(super) list: Vec<i128>,
}

impl Limits {
    /// No limits are known.
    pub(super) fn unknown(alloc: Global) -> Limits
        ensures { result.known ≡ false }
    {
        Limits {
            known: false,
            fresh: false,
            list: Vec::new(alloc),
        }
    }

    /// Makes them the limits after this row of the records. After some rows they are known no more.
    pub(super) fn follow(&mut self, records: &Records, row: &RowChange)
        ensures { AreLimitsOf (core_in records.now) self.old
            → AreLimitsOf (core_after_row (core_in records.now) row.now) self.new }
    {
        if !self.known {
            return;
        }
        match lowering_by(records, row) {
            Some(lowering) => self.lower(&lowering),
            None => self.known = false,
        }
    }

    // Makes them the limits after a row that does this to them.
    fn lower(&mut self, lowering: &Lowering)
        ensures { (core later : Core) → Lowers core later lowering.now → AreLimitsOf core self.old
            → AreLimitsOf later self.new }
    {
        self.set_idle(lowering.begins, i128::from(lowering.cents));
        if !self.lower_by(lowering.index, lowering.cents) {
            self.known = false;
            return;
        }
        self.set_idle(lowering.empties, i128::MAX);
    }

    // Makes this the limit of an account with nothing queued, if its limit was above zero.
    fn set_idle(&mut self, account: Option<usize>, limit: i128)
        ensures known { self.new.known ≡ self.old.known }
        ensures idle { (queues : List (List Payment)) → IfSome account (λ s. queue_of queues s ≡ [])
            → IsCeiling queues (λ _. 0) (limit_at self.old.list.items)
            → IsCeiling queues (λ _. 0) (limit_at self.new.list.items) }
        ensures most { pos 0 ≤ℤ limit → IfSome account (λ s. limit_at self.new.list.items s ≤ℤ limit) }
    {
        no_queue_no_limit();
        let Some(index) = account else {
            return;
        };
        if index >= self.list.len() || self.list[index] <= 0 {
            return;
        }
        self.list[index] = limit;
    }

    // Lowers a limit by the cents, where that fits.
    fn lower_by(&mut self, index: usize, cents: u64) -> bool
        ensures known { self.new.known ≡ self.old.known }
        ensures lower { result ≡ true → (p : ℕ) → (limit_at self.new.list.items p
            +ℤ pos (if index == p then cents else 0)) ≤ℤ limit_at self.old.list.items p }
    {
        if cents == 0 {
            return true;
        }
        if index >= self.list.len() {
            return false;
        }
        let Some(lower) = self.list[index].checked_sub(i128::from(cents)) else {
            return false;
        };
        self.list[index] = lower;
        self.fresh = false;
        true
    }
}
