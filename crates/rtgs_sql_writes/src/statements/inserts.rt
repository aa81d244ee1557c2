//! Rows that are added.
ghost use Rattle.std.specs.Prelude.{◌≡◌, OnOk};
ghost use Rattle.rtgs_book.specs.declared.change.RowChange.TheVariants as change;
ghost use Rattle.rtgs_rows.specs.Content.{Content, IsInOrder, with_change};
ghost use Rattle.rtgs_money.specs.Date.{IsBusinessDate};
ghost use Rattle.rtgs_rows.specs.Fitting.{FitsParticipant, FitsPosting, FitsUndated, FitsOrder, FitsMark};
ghost use Rattle.rtgs_sql_writes.specs.Staging.{ChangesTables, with_order_row, with_forward};
ghost use Rattle.sqlite.specs.State.{HasCleanDisk, KeepsCommit, Survives};
ghost use Rattle.sqlite.specs.Held.{state};

use rtgs_book::{Mark, Order, Participant, Posting};
use rtgs_money::BusinessDate;
use rtgs_rows::laws::next_row_is_above;
use rtgs_sql_columns::columns::{
    amount_value, blob, cents_value, check_mark, check_number, credit_value, mark_value,
    number_value, posting_value, state_value, text, text_of, text_or_null,
};
use sqlite::{Alter, Error, Transaction};

/// Adds the row of a participant, with a balance of 0.
pub(crate) fn add_participant<S: Alter>(
    tx: &mut Transaction<'_, S>,
    participant: &Participant,
) -> Result<usize, Error>
    ensures same_reference { tx.new.conn.ghost_name ≡ tx.old.conn.ghost_name }
    ensures made { (content : Content) → IsInOrder content
        → OnOk result (ChangesTables (state S.Store tx.old.conn.now) (state S.Store tx.new.conn.now) content
        (with_change content (change.AddParticipant participant.now))) }
    ensures formed { OnOk result (FitsParticipant participant.now) }
    ensures kept { HasCleanDisk (state S.Store tx.new.conn.now)
        → KeepsCommit (state S.Store tx.old.conn.now) (state S.Store tx.new.conn.now) }
    ensures survives { Survives (state S.Store tx.old.conn.now) (state S.Store tx.new.conn.now) (λ _. ⊥) }
{
    next_row_is_above();
    tx.execute(
        "INSERT INTO participant (code, name, key, credit, balance) VALUES (?1, ?2, ?3, ?4, 0)",
        &[
            text(participant.code.as_bytes()),
            text(participant.name.as_bytes()),
            blob(participant.key.as_bytes()),
            credit_value(participant.credit),
        ],
    )
}

/// Adds the row of a posting.
pub(crate) fn add_posting<S: Alter>(
    tx: &mut Transaction<'_, S>,
    posting: &Posting,
) -> Result<usize, Error>
    ensures same_reference { tx.new.conn.ghost_name ≡ tx.old.conn.ghost_name }
    ensures made { (content : Content) → IsInOrder (with_change content (change.AddPosting posting.now))
        → OnOk result (ChangesTables (state S.Store tx.old.conn.now) (state S.Store tx.new.conn.now) content
        (with_change content (change.AddPosting posting.now))) }
    ensures formed { OnOk result (FitsPosting posting.now) }
    ensures kept { HasCleanDisk (state S.Store tx.new.conn.now)
        → KeepsCommit (state S.Store tx.old.conn.now) (state S.Store tx.new.conn.now) }
    ensures survives { Survives (state S.Store tx.old.conn.now) (state S.Store tx.new.conn.now) (λ _. ⊥) }
{
    check_number(posting.number)?;
    let date = text_of(posting.date);
    tx.execute(
        "INSERT INTO posting (number, code, reference, cents, date) VALUES (?1, ?2, ?3, ?4, ?5)",
        &[
            number_value(posting.number),
            text(posting.code.as_bytes()),
            text(posting.reference.as_bytes()),
            posting_value(posting.cents),
            text_or_null(&date),
        ],
    )
}

/// Adds the row of an order, which does not say its due date.
fn add_order_row<S: Alter>(tx: &mut Transaction<'_, S>, order: &Order) -> Result<usize, Error>
    ensures same_reference { tx.new.conn.ghost_name ≡ tx.old.conn.ghost_name }
    ensures made { (content : Content) → IsInOrder (with_change content (change.AddOrder order.now))
        → OnOk result (ChangesTables (state S.Store tx.old.conn.now) (state S.Store tx.new.conn.now) content
        (with_order_row content order.now)) }
    ensures formed { OnOk result (FitsUndated order.now) }
    ensures kept { HasCleanDisk (state S.Store tx.new.conn.now)
        → KeepsCommit (state S.Store tx.old.conn.now) (state S.Store tx.new.conn.now) }
    ensures survives { Survives (state S.Store tx.old.conn.now) (state S.Store tx.new.conn.now) (λ _. ⊥) }
{
    check_number(order.number)?;
    check_mark(order.state)?;
    let date = text_of(Some(order.date));
    tx.execute(
        // The date is the last parameter, ?8, and stands before the state and the mark in the table.
        "INSERT INTO payment (number, sender, reference, receiver, amount, date, state, mark) \
         VALUES (?1, ?2, ?3, ?4, ?5, ?8, ?6, ?7)",
        &[
            number_value(order.number),
            text(order.sender.as_bytes()),
            text(order.reference.as_bytes()),
            text(order.receiver.as_bytes()),
            amount_value(order.amount),
            state_value(order.state),
            mark_value(order.state),
            text_or_null(&date),
        ],
    )
}

/// Adds the row of a due date, which stands under the number of its order.
fn add_forward<S: Alter>(
    tx: &mut Transaction<'_, S>,
    number: u64,
    due: BusinessDate,
) -> Result<usize, Error>
    ensures same_reference { tx.new.conn.ghost_name ≡ tx.old.conn.ghost_name }
    ensures made { (content : Content) → IsInOrder (with_forward content number due)
        → OnOk result (ChangesTables (state S.Store tx.old.conn.now) (state S.Store tx.new.conn.now) content
        (with_forward content number due)) }
    ensures formed { OnOk result (IsBusinessDate due) }
    ensures kept { HasCleanDisk (state S.Store tx.new.conn.now)
        → KeepsCommit (state S.Store tx.old.conn.now) (state S.Store tx.new.conn.now) }
    ensures survives { Survives (state S.Store tx.old.conn.now) (state S.Store tx.new.conn.now) (λ _. ⊥) }
{
    check_number(number)?;
    let date = text_of(Some(due));
    tx.execute(
        "INSERT INTO forward (number, due) VALUES (?1, ?2)",
        &[number_value(number), text_or_null(&date)],
    )
}

/// Adds the row of an order, and that of its due date where it has one.
pub(crate) fn add_order<S: Alter>(
    tx: &mut Transaction<'_, S>,
    order: &Order,
) -> Result<usize, Error>
    ensures same_reference { tx.new.conn.ghost_name ≡ tx.old.conn.ghost_name }
    ensures made { (content : Content) → IsInOrder (with_change content (change.AddOrder order.now))
        → OnOk result (ChangesTables (state S.Store tx.old.conn.now) (state S.Store tx.new.conn.now) content
        (with_change content (change.AddOrder order.now))) }
    ensures formed { OnOk result (FitsOrder order.now) }
    ensures kept { HasCleanDisk (state S.Store tx.new.conn.now)
        → KeepsCommit (state S.Store tx.old.conn.now) (state S.Store tx.new.conn.now) }
    ensures survives { Survives (state S.Store tx.old.conn.now) (state S.Store tx.new.conn.now) (λ _. ⊥) }
{
    let rows = add_order_row(tx, order)?;
    match order.due {
        Some(due) => add_forward(tx, order.number, due),
        None => Ok(rows),
    }
}

/// Adds the row of a mark.
pub(crate) fn add_mark<S: Alter>(tx: &mut Transaction<'_, S>, mark: &Mark) -> Result<usize, Error>
    ensures same_reference { tx.new.conn.ghost_name ≡ tx.old.conn.ghost_name }
    ensures made { (content : Content) → IsInOrder (with_change content (change.AddMark mark.now))
        → OnOk result (ChangesTables (state S.Store tx.old.conn.now) (state S.Store tx.new.conn.now) content
        (with_change content (change.AddMark mark.now))) }
    ensures formed { OnOk result (FitsMark mark.now) }
    ensures kept { HasCleanDisk (state S.Store tx.new.conn.now)
        → KeepsCommit (state S.Store tx.old.conn.now) (state S.Store tx.new.conn.now) }
    ensures survives { Survives (state S.Store tx.old.conn.now) (state S.Store tx.new.conn.now) (λ _. ⊥) }
{
    check_number(mark.number)?;
    check_number(mark.count)?;
    let date = text_of(Some(mark.date));
    tx.execute(
        "INSERT INTO mark (number, date, many, value) VALUES (?1, ?2, ?3, ?4)",
        &[
            number_value(mark.number),
            text_or_null(&date),
            number_value(mark.count),
            cents_value(mark.value),
        ],
    )
}
