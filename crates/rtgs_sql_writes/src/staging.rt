//! A change in a transaction of its own.
ghost use Rattle.std.specs.Prelude.{◌≡◌, false, IsTrue, OnOk, IfErr};
ghost use Rattle.rtgs_rows.specs.Content.{Content, Rests, IsInOrder, AreInOrder, with_change};
ghost use Rattle.rtgs_rows.specs.Content.{with_changes};
ghost use Rattle.sqlite.specs.State.{HasCleanDisk, KeepsCommit, Survives};
ghost use Rattle.sqlite.specs.Held.{state};
ghost use Rattle.std.specs.List.{AllByRecursion};
ghost use Rattle.rtgs_rows.specs.Fitting.{FitsRow};
ghost use Rattle.rtgs_sql_writes.specs.Stops.{IsBefore};
ghost use Rattle.rtgs_sql_writes.specs.Staging.{ChangesTables, HoldsChange};

use crate::statements::{
    add_mark, add_order, add_participant, add_posting, enter_queue, set_balance, set_credit,
    set_day, set_state,
};
use rtgs_book::RowChange;
use sqlite::{Alter, Connection, Error, Transaction};

/// Where a change stopped.
#[derive(Clone, Copy, Debug, Drop)]
pub enum Stopped {
    /// Before the call that commits.
    Before(Error),
    /// By the call that commits.
    AtCommit(Error),
}

/// Makes the change of one row inside the transaction.
fn stage_row<S: Alter>(tx: &mut Transaction<'_, S>, row: &RowChange) -> Result<(), Error>
    ensures same_reference { tx.new.conn.ghost_name ≡ tx.old.conn.ghost_name }
    ensures made { (content : Content) → IsInOrder content → IsInOrder (with_change content row.now)
        → OnOk result (ChangesTables (state S.Store tx.old.conn.now) (state S.Store tx.new.conn.now) content
        (with_change content row.now)) }
    ensures formed { OnOk result (FitsRow row.now) }
    ensures kept { HasCleanDisk (state S.Store tx.new.conn.now)
        → KeepsCommit (state S.Store tx.old.conn.now) (state S.Store tx.new.conn.now) }
    ensures survives { Survives (state S.Store tx.old.conn.now) (state S.Store tx.new.conn.now) (λ _. ⊥) }
{
    match row {
        RowChange::AddParticipant(participant) => add_participant(tx, participant)?,
        RowChange::AddPosting(posting) => add_posting(tx, posting)?,
        RowChange::AddOrder(order) => add_order(tx, order)?,
        RowChange::AddMark(mark) => add_mark(tx, mark)?,
        RowChange::SetCredit { code, credit } => set_credit(tx, code, *credit)?,
        RowChange::SetBalance { code, balance } => set_balance(tx, code, *balance)?,
        RowChange::SetState { number, state } => set_state(tx, *number, *state)?,
        RowChange::EnterQueue { number, date } => enter_queue(tx, *number, *date)?,
        RowChange::SetDay(day) => set_day(tx, *day)?,
    };
    Ok(())
}

/// Makes the changes inside the transaction, one after another.
fn stage<S: Alter>(tx: &mut Transaction<'_, S>, rows: &[RowChange]) -> Result<(), Error>
    ensures same_reference { tx.new.conn.ghost_name ≡ tx.old.conn.ghost_name }
    ensures made { (content : Content) → AreInOrder content rows.now
        → OnOk result (ChangesTables (state S.Store tx.old.conn.now) (state S.Store tx.new.conn.now) content
        (with_changes content rows.now)) }
    ensures formed { OnOk result (AllByRecursion FitsRow rows.now) }
    ensures kept { HasCleanDisk (state S.Store tx.new.conn.now)
        → KeepsCommit (state S.Store tx.old.conn.now) (state S.Store tx.new.conn.now) }
    ensures survives { Survives (state S.Store tx.old.conn.now) (state S.Store tx.new.conn.now) (λ _. ⊥) }
{
    for row in rows {
        stage_row(tx, row)?;
    }
    Ok(())
}

/// Makes the change in a transaction of its own, whose commit is the last call of the store.
pub fn write<S: Alter>(conn: &mut Connection<S>, rows: &[RowChange]) -> Result<(), Stopped>
    requires { conn.old.in_transaction ≡ false }
    ensures mode { conn.new.in_transaction ≡ false }
    ensures done { HasCleanDisk (state S.Store conn.new) → (content : Content) → Rests content (state S.Store conn.old)
        → AreInOrder content rows.now
        → OnOk result (Rests (with_changes content rows.now) (state S.Store conn.new)) }
    ensures formed { OnOk result (AllByRecursion FitsRow rows.now) }
    ensures undone { HasCleanDisk (state S.Store conn.new) → (content : Content)
        → Rests content (state S.Store conn.old) → IsTrue (state S.Store conn.new).is_open
        → IfErr result (λ e. IsBefore e → Rests content (state S.Store conn.new)) }
    ensures early { IfErr result (λ e. IsBefore e → Survives (state S.Store conn.old) (state S.Store conn.new)
        (λ _. ⊥)) }
    ensures late { IfErr result (λ e. ¬ IsBefore e → AllByRecursion FitsRow rows.now) }
    ensures crash { Survives (state S.Store conn.old) (state S.Store conn.new)
        (HoldsChange (state S.Store conn.old) rows.now) }
{
    let mut tx = conn.transaction();
    match stage(&mut tx, rows) {
        Ok(()) => {}
        Err(error) => return Err(Stopped::Before(error)),
    }
    match tx.commit() {
        Ok(()) => Ok(()),
        Err(error) => Err(Stopped::AtCommit(error)),
    }
}
