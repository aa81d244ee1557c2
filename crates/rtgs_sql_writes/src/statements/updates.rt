//! Columns that are set.
ghost use Rattle.std.specs.Prelude.{◌≡◌, OnOk};
ghost use Rattle.rtgs_book.specs.declared.change.RowChange.TheVariants as change;
ghost use Rattle.rtgs_rows.specs.Content.{Content, IsInOrder, with_change};
ghost use Rattle.rtgs_money.specs.Amounts.{IsCredit};
ghost use Rattle.rtgs_money.specs.Date.{IsBusinessDate};
ghost use Rattle.rtgs_rows.specs.Fitting.{FitsDate};
ghost use Rattle.rtgs_sql_writes.specs.Staging.{ChangesTables, with_date, with_choice};
ghost use Rattle.sqlite.specs.State.{HasCleanDisk, KeepsCommit, Survives};
ghost use Rattle.sqlite.specs.Held.{state};

use rtgs_book::{Day, OrderState};
use rtgs_money::{BusinessDate, Cents, Code, Credit};
use rtgs_sql_columns::columns::{
    cents_value, check_mark, check_number, credit_value, mark_value, number_value, phase_value,
    resolution_value, state_value, text, text_of, text_or_null,
};
use rtgs_sql_columns::laws::one_table_answers;
use sqlite::{Alter, Error, Transaction};

/// Sets the credit limit of a participant.
pub(crate) fn set_credit<S: Alter>(
    tx: &mut Transaction<'_, S>,
    code: &Code,
    credit: Credit,
) -> Result<usize, Error>
    ensures same_reference { tx.new.conn.ghost_name ≡ tx.old.conn.ghost_name }
    ensures made { (content : Content) → IsInOrder content
        → OnOk result (ChangesTables (state S.Store tx.old.conn.now) (state S.Store tx.new.conn.now) content
        (with_change content (change.SetCredit code.now credit))) }
    ensures formed { OnOk result (IsCredit credit) }
    ensures kept { HasCleanDisk (state S.Store tx.new.conn.now)
        → KeepsCommit (state S.Store tx.old.conn.now) (state S.Store tx.new.conn.now) }
    ensures survives { Survives (state S.Store tx.old.conn.now) (state S.Store tx.new.conn.now) (λ _. ⊥) }
{
    one_table_answers();
    tx.execute(
        "UPDATE participant SET credit = ?2 WHERE code = ?1",
        &[text(code.as_bytes()), credit_value(credit)],
    )
}

/// Sets the stored balance of a participant.
pub(crate) fn set_balance<S: Alter>(
    tx: &mut Transaction<'_, S>,
    code: &Code,
    balance: Cents,
) -> Result<usize, Error>
    ensures same_reference { tx.new.conn.ghost_name ≡ tx.old.conn.ghost_name }
    ensures made { (content : Content) → IsInOrder content
        → OnOk result (ChangesTables (state S.Store tx.old.conn.now) (state S.Store tx.new.conn.now) content
        (with_change content (change.SetBalance code.now balance))) }
    ensures kept { HasCleanDisk (state S.Store tx.new.conn.now)
        → KeepsCommit (state S.Store tx.old.conn.now) (state S.Store tx.new.conn.now) }
    ensures survives { Survives (state S.Store tx.old.conn.now) (state S.Store tx.new.conn.now) (λ _. ⊥) }
{
    one_table_answers();
    tx.execute(
        "UPDATE participant SET balance = ?2 WHERE code = ?1",
        &[text(code.as_bytes()), cents_value(balance)],
    )
}

/// Sets the state of an order, and its mark.
pub(crate) fn set_state<S: Alter>(
    tx: &mut Transaction<'_, S>,
    number: u64,
    stage: OrderState,
) -> Result<usize, Error>
    ensures same_reference { tx.new.conn.ghost_name ≡ tx.old.conn.ghost_name }
    ensures made { (content : Content) → IsInOrder content
        → OnOk result (ChangesTables (state S.Store tx.old.conn.now) (state S.Store tx.new.conn.now) content
        (with_change content (change.SetState number stage))) }
    ensures kept { HasCleanDisk (state S.Store tx.new.conn.now)
        → KeepsCommit (state S.Store tx.old.conn.now) (state S.Store tx.new.conn.now) }
    ensures survives { Survives (state S.Store tx.old.conn.now) (state S.Store tx.new.conn.now) (λ _. ⊥) }
{
    one_table_answers();
    check_number(number)?;
    check_mark(stage)?;
    tx.execute(
        "UPDATE payment SET state = ?2, mark = ?3 WHERE number = ?1",
        &[number_value(number), state_value(stage), mark_value(stage)],
    )
}

/// Lets a held order into its queue, on this date. An order that is not held stays as it is.
pub(crate) fn enter_queue<S: Alter>(
    tx: &mut Transaction<'_, S>,
    number: u64,
    date: BusinessDate,
) -> Result<usize, Error>
    ensures same_reference { tx.new.conn.ghost_name ≡ tx.old.conn.ghost_name }
    ensures made { (content : Content) → IsInOrder content
        → OnOk result (ChangesTables (state S.Store tx.old.conn.now) (state S.Store tx.new.conn.now) content
        (with_change content (change.EnterQueue number date))) }
    ensures formed { OnOk result (IsBusinessDate date) }
    ensures kept { HasCleanDisk (state S.Store tx.new.conn.now)
        → KeepsCommit (state S.Store tx.old.conn.now) (state S.Store tx.new.conn.now) }
    ensures survives { Survives (state S.Store tx.old.conn.now) (state S.Store tx.new.conn.now) (λ _. ⊥) }
{
    one_table_answers();
    check_number(number)?;
    let day = text_of(Some(date));
    tx.execute(
        "UPDATE payment SET state = ?2, date = ?3 WHERE number = ?1 AND state = ?4",
        &[
            number_value(number),
            state_value(OrderState::Queued),
            text_or_null(&day),
            state_value(OrderState::Held),
        ],
    )
}

/// Sets the date and the phase of the business day.
fn set_date<S: Alter>(tx: &mut Transaction<'_, S>, day: Day) -> Result<usize, Error>
    ensures same_reference { tx.new.conn.ghost_name ≡ tx.old.conn.ghost_name }
    ensures made { (content : Content) → OnOk result (ChangesTables (state S.Store tx.old.conn.now)
        (state S.Store tx.new.conn.now) content (with_date content day)) }
    ensures formed { OnOk result (FitsDate day.date) }
    ensures kept { HasCleanDisk (state S.Store tx.new.conn.now)
        → KeepsCommit (state S.Store tx.old.conn.now) (state S.Store tx.new.conn.now) }
    ensures survives { Survives (state S.Store tx.old.conn.now) (state S.Store tx.new.conn.now) (λ _. ⊥) }
{
    one_table_answers();
    let date = text_of(day.date);
    tx.execute(
        "UPDATE desk SET date = ?1, phase = ?2 WHERE id = 1",
        &[text_or_null(&date), phase_value(day.phase)],
    )
}

/// Sets whether the day is automatic.
fn set_choice<S: Alter>(tx: &mut Transaction<'_, S>, automatic: bool) -> Result<usize, Error>
    ensures same_reference { tx.new.conn.ghost_name ≡ tx.old.conn.ghost_name }
    ensures made { (content : Content) → OnOk result (ChangesTables (state S.Store tx.old.conn.now)
        (state S.Store tx.new.conn.now) content (with_choice content automatic)) }
    ensures kept { HasCleanDisk (state S.Store tx.new.conn.now)
        → KeepsCommit (state S.Store tx.old.conn.now) (state S.Store tx.new.conn.now) }
    ensures survives { Survives (state S.Store tx.old.conn.now) (state S.Store tx.new.conn.now) (λ _. ⊥) }
{
    one_table_answers();
    tx.execute(
        "UPDATE resolution SET automatic = ?1 WHERE id = 1",
        &[resolution_value(automatic)],
    )
}

/// Sets the business day, which stands in the rows of two tables.
pub(crate) fn set_day<S: Alter>(tx: &mut Transaction<'_, S>, day: Day) -> Result<usize, Error>
    ensures same_reference { tx.new.conn.ghost_name ≡ tx.old.conn.ghost_name }
    ensures made { (content : Content) → IsInOrder content
        → OnOk result (ChangesTables (state S.Store tx.old.conn.now) (state S.Store tx.new.conn.now) content
        (with_change content (change.SetDay day))) }
    ensures formed { OnOk result (FitsDate day.date) }
    ensures kept { HasCleanDisk (state S.Store tx.new.conn.now)
        → KeepsCommit (state S.Store tx.old.conn.now) (state S.Store tx.new.conn.now) }
    ensures survives { Survives (state S.Store tx.old.conn.now) (state S.Store tx.new.conn.now) (λ _. ⊥) }
{
    let automatic = day.automatic;
    set_date(tx, day)?;
    set_choice(tx, automatic)
}
