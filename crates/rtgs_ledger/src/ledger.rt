//! The ledger.
ghost use Rattle.std.specs.Prelude.{◌≡◌, ◌≢◌, ◌⊎◌, [], IfOk, OnOk, IfErr, true, false};
ghost use Rattle.rtgs_book.specs.declared.book.Book.{Book};
ghost use Rattle.rtgs_book.specs.Calm.{IsCalm};
ghost use Rattle.rtgs_book.specs.Step.{may_free};
ghost use Rattle.rtgs_book.specs.cores.Cores.{IsCoreOf, found_for};
ghost use Rattle.rtgs_book.specs.cores.Following.{core_after};
ghost use Rattle.rtgs_records.specs.Held.{HasRoom};
ghost use Rattle.rtgs_ledger.specs.Following.{FreesOrders};
ghost use Rattle.rtgs_ledger.specs.Kept.{IsPrepared, IsPreparedByItself, IsCommandRefused, IsRefusedByItself};
ghost use Rattle.rtgs_ledger.specs.Kinds.{CanAnswer, CanAnswerByItself, is_of_the_store};
ghost use Rattle.rtgs_ledger.specs.Rooms.{CanBeMade, Covers, room_of};

mod close;
mod credit;
mod cut_off;
mod follow_up;
mod freeing;
mod limits;
mod lowering;
mod opening;
mod order;
mod participant;
mod posting;
mod queue_readings;
mod readings;
mod resolution;
mod resolver_input;
mod staying_calm;
mod withdrawal;

use follow_up::judge;
use limits::Limits;
use rtgs_book::cores::laws::cores_follow_changes;
use rtgs_book::laws::greatest_exists;
use rtgs_book::{
    Answer, Change, Command, Core, Fault, Found, Known, Refusal, RowChange, Rows, Rule, WholeAnswer,
};
use rtgs_laws::laws::{own_step_keeps_ranges, own_step_keeps_soundness};
use rtgs_records::queues::laws::waiting_orders_can_be_loaded;
use rtgs_records::{Accounts, Orders, Records};
use std::alloc::{AllocError, Global};
use std::marker::Model;

/// What the desk has of a book in memory. Contracts see the core, and the room that was made for what comes next.
/// Between calls the orders in memory are those that are queued or held, and no other, and the limits, where they are
/// known, are those of the queues.
#[derive(Debug, Drop)]
pub struct Ledger {
    alloc: Global,
    records: Records,
    limits: Limits,
}

impl Model for Ledger {
    ghost use Rattle.std.specs.Prelude.{◌≡◌, true};
    ghost use Rattle.rtgs_records.specs.Held.{Held};
    ghost use Rattle.rtgs_records.specs.Records.{core_in, held_of};
    ghost use Rattle.rtgs_ledger.specs.Limits.{AreLimitsOf};

    ghost Value = { Held };

    ghost view = { λ l. held_of l.records };

    ghost invariant = { λ l. (l.records.orders.tidy ≡ true) × AreLimitsOf (core_in l.records) l.limits };
}

impl Ledger {
    /// The ledger of a book with this core. There is none of a book whose automatic day left orders that could settle
    /// together, and none where memory was refused.
    pub fn load(alloc: Global, core: Core) -> Result<Ledger, Fault>
        requires { (book : Book) × IsCoreOf book core }
        ensures given { IfOk result (λ ledger. ledger.core ≡ core) }
        ensures calm { (book : Book) → IsCoreOf book core → IfOk result (λ ledger. IsCalm book) }
        ensures fault { (book : Book) → IsCoreOf book core → IfErr result (λ fault. (fault ≡ Fault.OutOfMemory)
            ⊎ ((fault ≡ Fault.Inconsistent Rule.Calm) × ¬ IsCalm book)) }
    {
        let ledger = Ledger::of_core(alloc, core)?;
        let Ok(calm) = ledger.is_calm() else {
            return Err(Fault::OutOfMemory);
        };
        if !calm {
            return Err(Fault::Inconsistent { rule: Rule::Calm });
        }
        Ok(ledger)
    }

    // The ledger of a book with this core. The only error is lack of memory.
    fn of_core(alloc: Global, core: Core) -> Result<Ledger, AllocError>
        requires { (book : Book) × IsCoreOf book core }
        ensures { IfOk result (λ ledger. ledger.core ≡ core) }
    {
        waiting_orders_can_be_loaded();
        let Core {
            accounts,
            waiting,
            day,
            next_posting,
            next_order,
            next_mark,
        } = core;
        let records = Records {
            accounts: Accounts::load(accounts),
            orders: Orders::load(alloc, waiting, next_order)?,
            day,
            next_posting,
            next_mark,
        };
        Ok(Ledger {
            alloc,
            records,
            limits: Limits::unknown(alloc),
        })
    }

    /// What the command is answered, and the row changes that it makes with what follows it, where this was found for
    /// it in a calm book. The core stays as it is, and every growth that the change needs is made here. A refusal is
    /// that of the command's first test that holds, or lack of memory. Memory is asked for behind the last test, but to
    /// close a day: so its lack hides no other refusal.
    pub fn prepare(
        &mut self,
        command: &Command,
        found: &Found,
    ) -> Result<(WholeAnswer, Change), Refusal>
        ensures core { self.new.core ≡ self.old.core }
        ensures room { IfOk result (λ (answer, change). HasRoom self.new change) }
        ensures answered { IfOk result (λ (answer, change). CanAnswer command.now answer change) }
        ensures of_the_command { IfErr result (λ refusal. is_of_the_store refusal ≡ false) }
        ensures prepared { (book : Book) → IsCoreOf book self.old.core → IsCalm book
            → found.now ≡ found_for book command.now
            → IfOk result (λ (answer, change). IsPrepared book self.old.core command.now answer change) }
        ensures refused { (book : Book) → IsCoreOf book self.old.core → IsCalm book
            → found.now ≡ found_for book command.now → IfErr result (IsCommandRefused book command.now) }
    {
        let (answer, change) = self.decide(command, found)?;
        self.make_room(&change)?;
        Ok((answer, change))
    }

    // What `prepare` answers and changes. No room is made, and nothing changes but that limits may be found.
    fn decide(&mut self, command: &Command, found: &Found) -> Result<(WholeAnswer, Change), Refusal>
        ensures same { self.new ≡ self.old }
        ensures made { IfOk result (λ (answer, change). CanBeMade self.old.core change) }
        ensures answered { IfOk result (λ (answer, change). CanAnswer command.now answer change) }
        ensures of_the_command { IfErr result (λ refusal. is_of_the_store refusal ≡ false) }
        ensures prepared { (book : Book) → IsCoreOf book self.old.core → IsCalm book
            → found.now ≡ found_for book command.now
            → IfOk result (λ (answer, change). IsPrepared book self.old.core command.now answer change) }
        ensures refused { (book : Book) → IsCoreOf book self.old.core → IsCalm book
            → found.now ≡ found_for book command.now → IfErr result (IsCommandRefused book command.now) }
    {
        cores_follow_changes();
        greatest_exists();
        own_step_keeps_ranges();
        own_step_keeps_soundness();
        judge(command);
        let (own, change) = self.decide_own(command, found)?;
        if !self.is_followed(command, &own, &change) {
            return Ok((WholeAnswer { own, auto: None }, change));
        }
        if self.stays_calm(&change) {
            return Ok((WholeAnswer { own, auto: None }, change));
        }
        self.decide_following(command, own, change)
    }

    // What the command by itself is answered, and the row changes that it makes. A refusal is that of the command's
    // first test that holds, or lack of memory, of which the same is true as of `prepare`.
    fn decide_own(&self, command: &Command, found: &Found) -> Result<(Answer, Change), Refusal>
        ensures made { IfOk result (λ (answer, change). CanBeMade self.now.core change) }
        ensures frees { may_free command.now ≡ true → IfOk result (λ (answer, change). FreesOrders change) }
        ensures answered { IfOk result (λ (answer, change). CanAnswerByItself command.now answer change) }
        ensures of_the_command { IfErr result (λ refusal. is_of_the_store refusal ≡ false) }
        ensures prepared { (book : Book) → IsCoreOf book self.now.core → found.now ≡ found_for book command.now
            → IfOk result (λ (answer, change). IsPreparedByItself book self.now.core command.now answer change) }
        ensures refused { (book : Book) → IsCoreOf book self.now.core → found.now ≡ found_for book command.now
            → IfErr result (IsRefusedByItself book command.now) }
    {
        match *command {
            Command::Add { code, name, key } => self.decide_add(code, name, key),
            Command::SetCredit { code, credit } => self.decide_set_credit(code, credit),
            Command::Post {
                code,
                reference,
                cents,
            } => self.decide_post(code, reference, cents, found.posting),
            Command::OpenDay(new_day) => self.decide_open_day(&new_day),
            Command::Order { sender, order } => self.decide_order(sender, &order, found.order),
            Command::Withdraw { sender, reference } => {
                self.decide_withdraw(sender, reference, found.order)
            }
            Command::Resolve => self.decide_resolve(),
            Command::CutOff(date) => self.decide_cut_off(date),
            Command::CloseDay(date) => self.decide_close_day(date),
        }
    }

    // Makes every growth that the change needs, and nothing else: only its first row needs any.
    fn make_room(&mut self, change: &Change) -> Result<(), AllocError>
        requires { CanBeMade self.old.core change.now }
        ensures core { self.new.core ≡ self.old.core }
        ensures room { OnOk result (HasRoom self.new change.now) }
        ensures some { IfErr result (λ _. change.now ≢ []) }
    {
        match change.as_slice().first() {
            Some(row) => self.make_room_for(row),
            None => Ok(()),
        }
    }

    // Makes room for the row, where it adds a participant, or an order that waits.
    fn make_room_for(&mut self, row: &RowChange) -> Result<(), AllocError>
        ensures core { self.new.core ≡ self.old.core }
        ensures room { OnOk result (Covers self.new.room (room_of row.now)) }
    {
        match row {
            RowChange::AddParticipant(_) => self.records.accounts.reserve(),
            RowChange::AddOrder(order) if order.state.is_waiting() => {
                self.records.orders.reserve(order.sender, order.state)
            }
            _ => Ok(()),
        }
    }

    /// Makes a prepared change, and sweeps out the orders that wait no more. It takes no memory and does not fail.
    pub fn adopt(&mut self, change: Change)
        requires { HasRoom self.old change }
        ensures { self.new.core ≡ core_after self.old.core change }
    {
        self.apply(&change);
    }

    // The same, of a change that is needed further.
    fn apply(&mut self, change: &Change)
        requires { HasRoom self.old change.now }
        ensures { self.new.core ≡ core_after self.old.core change.now }
    {
        for row in change.as_slice() {
            self.limits.follow(&self.records, row);
            self.records.apply(row);
        }
        self.records.orders.sweep();
    }

    // The ledger that the change leads to, beside this one.
    fn after(&self, change: &Change) -> Result<Ledger, AllocError>
        requires { CanBeMade self.now.core change.now }
        ensures { IfOk result (λ after. after.core ≡ core_after self.now.core change.now) }
    {
        let mut after = self.copy()?;
        after.make_room(change)?;
        after.apply(change);
        Ok(after)
    }

    // The same ledger once more, with no room for what comes next.
    fn copy(&self) -> Result<Ledger, AllocError>
        ensures { IfOk result (λ copy. copy.core ≡ self.now.core) }
    {
        let records = Records {
            accounts: self.records.accounts.copy()?,
            orders: self.records.orders.copy(self.alloc)?,
            day: self.records.day,
            next_posting: self.records.next_posting,
            next_mark: self.records.next_mark,
        };
        Ok(Ledger {
            alloc: self.alloc,
            records,
            limits: Limits::unknown(self.alloc),
        })
    }

    // The answer to a command that was done before. Nothing changes.
    fn repeated(&self, known: Known) -> (Answer, Change)
        ensures answer { result.0 ≡ Answer.Repeated known }
        ensures change { result.1 ≡ [] }
    {
        (Answer::Repeated(known), Rows::new(self.alloc))
    }
}
