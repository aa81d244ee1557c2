//! The record of each table's row.
ghost use Rattle.std.specs.Prelude.{◌≡◌, ◌<◌, pos, Bool, length, Some, IfSome, refl};
ghost use Rattle.sqlite_value.specs.Order.{column};
ghost use Rattle.sqlite.specs.declared.types.Value.TheVariants.{Int};
ghost use Rattle.rtgs_book.specs.declared.phase.Phase.{Phase as PhaseSpec};
ghost use Rattle.rtgs_book.specs.declared.order_state.OrderState.{OrderState as StateSpec};
ghost use Rattle.rtgs_rows.specs.Rows.{desk_row_of, resolution_row_of, phase_number, resolution_number, state_number};
ghost use Rattle.rtgs_rows.specs.Rows.{mark_value};
ghost use Rattle.rtgs_rows.specs.TableRecords.{desk_records, account_records, posting_records, order_records};
ghost use Rattle.rtgs_rows.specs.TableRecords.{mark_records, forward_records, resolution_records};
ghost use Rattle.rtgs_sql_columns.specs.Numbers.{at_least_zero};

use crate::table_row::{ListRow, OneRow, TableRow};
use rtgs_book::{Account, Mark, Order, OrderState, Participant, Phase, Posting};
use rtgs_money::{Amount, Credit, KeyDigest, PostingAmount};
use rtgs_rows::numbers::{
    PHASE_CLOSED, PHASE_CUT_OFF, PHASE_OPEN, RESOLUTION_AUTOMATIC, RESOLUTION_ON_REQUEST,
    STATE_HELD, STATE_QUEUED, STATE_REJECTED, STATE_SETTLED, STATE_WITHDRAWN,
};
use rtgs_rows::{DeskRow, Forward, ResolutionRow};
use rtgs_sql_columns::fields::{
    blob, cents, code, date, date_or_null, int, is_null, name, number, reference, unsigned, width,
};
use sqlite::Row;

/// The number of the row in a table of one row.
const ONLY_ID: i64 = 1;

impl TableRow for DeskRow {
    ghost records = { desk_records };

    #[tactic(auto, using(crate::proofs::Selecting::queries))]
    fn query() -> &'static str {
        "SELECT id, version, date, phase FROM desk ORDER BY id"
    }

    #[tactic(auto, using(crate::proofs::Selecting::since_the_first))]
    fn first_version() -> u64 {
        1
    }

    fn from_row(row: &Row) -> Option<DeskRow> {
        width(row, 4)?;
        if int(row, 0)? != ONLY_ID {
            return None;
        }
        Some(DeskRow {
            version: unsigned(row, 1)?,
            date: date_or_null(row, 2)?,
            phase: phase_of(unsigned(row, 3)?)?,
        })
    }
}

impl TableRow for Account {
    ghost records = { account_records };

    #[tactic(auto, using(crate::proofs::Selecting::queries))]
    fn query() -> &'static str {
        "SELECT code, name, key, credit, balance FROM participant ORDER BY code"
    }

    #[tactic(auto, using(crate::proofs::Selecting::since_the_first))]
    fn first_version() -> u64 {
        1
    }

    fn from_row(row: &Row) -> Option<Account> {
        width(row, 5)?;
        let participant = Participant {
            code: code(row, 0)?,
            name: name(row, 1)?,
            key: KeyDigest::from_slice(blob(row, 2)?)?,
            credit: Credit::from_cents(unsigned(row, 3)?)?,
        };
        Some(Account {
            participant,
            balance: cents(row, 4)?,
        })
    }
}

impl TableRow for Posting {
    ghost records = { posting_records };

    #[tactic(auto, using(crate::proofs::Selecting::queries))]
    fn query() -> &'static str {
        "SELECT number, code, reference, cents, date FROM posting ORDER BY number"
    }

    #[tactic(auto, using(crate::proofs::Selecting::since_the_first))]
    fn first_version() -> u64 {
        1
    }

    fn from_row(row: &Row) -> Option<Posting> {
        width(row, 5)?;
        Some(Posting {
            number: number(row, 0)?,
            code: code(row, 1)?,
            reference: reference(row, 2)?,
            cents: PostingAmount::from_cents(int(row, 3)?)?,
            date: date_or_null(row, 4)?,
        })
    }
}

// A row of an order does not say its due date, which stands in a row of another table.
impl TableRow for Order {
    ghost records = { order_records };

    #[tactic(auto, using(crate::proofs::Selecting::queries))]
    fn query() -> &'static str {
        "SELECT number, sender, reference, receiver, amount, date, state, mark FROM payment ORDER BY number"
    }

    #[tactic(auto, using(crate::proofs::Selecting::since_the_first))]
    fn first_version() -> u64 {
        1
    }

    fn from_row(row: &Row) -> Option<Order> {
        width(row, 8)?;
        Some(Order {
            number: number(row, 0)?,
            sender: code(row, 1)?,
            reference: reference(row, 2)?,
            receiver: code(row, 3)?,
            amount: Amount::from_cents(unsigned(row, 4)?)?,
            date: date(row, 5)?,
            due: None,
            state: state(row, 6, 7)?,
        })
    }
}

impl TableRow for Mark {
    ghost records = { mark_records };

    #[tactic(auto, using(crate::proofs::Selecting::queries))]
    fn query() -> &'static str {
        "SELECT number, date, many, value FROM mark ORDER BY number"
    }

    #[tactic(auto, using(crate::proofs::Selecting::since_the_first))]
    fn first_version() -> u64 {
        1
    }

    fn from_row(row: &Row) -> Option<Mark> {
        width(row, 4)?;
        Some(Mark {
            number: number(row, 0)?,
            date: date(row, 1)?,
            count: number(row, 2)?,
            value: cents(row, 3)?,
        })
    }
}

impl TableRow for Forward {
    ghost records = { forward_records };

    #[tactic(auto, using(crate::proofs::Selecting::queries))]
    fn query() -> &'static str {
        "SELECT number, due FROM forward ORDER BY number"
    }

    #[tactic(auto, using(crate::proofs::Selecting::since_the_second))]
    fn first_version() -> u64 {
        2
    }

    fn from_row(row: &Row) -> Option<Forward> {
        width(row, 2)?;
        Some(Forward {
            number: number(row, 0)?,
            due: date(row, 1)?,
        })
    }
}

impl TableRow for ResolutionRow {
    ghost records = { resolution_records };

    #[tactic(auto, using(crate::proofs::Selecting::queries))]
    fn query() -> &'static str {
        "SELECT id, automatic FROM resolution ORDER BY id"
    }

    #[tactic(auto, using(crate::proofs::Selecting::since_the_third))]
    fn first_version() -> u64 {
        3
    }

    fn from_row(row: &Row) -> Option<ResolutionRow> {
        width(row, 2)?;
        if int(row, 0)? != ONLY_ID {
            return None;
        }
        Some(ResolutionRow {
            automatic: choice_of(unsigned(row, 1)?)?,
        })
    }
}

// ---- the tables of one row

impl OneRow for DeskRow {
    ghost of_day = { λ version book. desk_row_of version book.day };

    ghost one = { λ version accounts book. refl };
}

impl OneRow for ResolutionRow {
    ghost of_day = { λ version book. resolution_row_of book.day };

    ghost one = { λ version accounts book. refl };
}

// ---- and those of lists

impl ListRow for Account {
    ghost none_at_first = { λ version. refl };
}

impl ListRow for Posting {
    ghost none_at_first = { λ version. refl };
}

impl ListRow for Order {
    ghost none_at_first = { λ version. refl };
}

impl ListRow for Mark {
    ghost none_at_first = { λ version. refl };
}

impl ListRow for Forward {
    ghost none_at_first = { λ version. refl };
}

/// The phase with this number.
fn phase_of(number: u64) -> Option<Phase>
    ensures found { (phase : PhaseSpec) → number ≡ phase_number phase → result ≡ Some phase }
    ensures is { IfSome result (λ it. number ≡ phase_number it) }
{
    match number {
        PHASE_CLOSED => Some(Phase::Closed),
        PHASE_OPEN => Some(Phase::Open),
        PHASE_CUT_OFF => Some(Phase::CutOff),
        _ => None,
    }
}

/// The choice with this number, whether a day is automatic.
fn choice_of(number: u64) -> Option<bool>
    ensures found { (automatic : Bool) → number ≡ resolution_number automatic → result ≡ Some automatic }
    ensures is { IfSome result (λ it. number ≡ resolution_number it) }
{
    match number {
        RESOLUTION_ON_REQUEST => Some(false),
        RESOLUTION_AUTOMATIC => Some(true),
        _ => None,
    }
}

/// The state at one place, and at the other the mark of a settled order, which no other order has. A mark below zero is
/// read as 0.
fn state(row: &Row, at: usize, mark_at: usize) -> Option<OrderState>
    ensures found { (state : StateSpec) → at < length row.now → mark_at < length row.now
        → column row.now at ≡ Int (pos (state_number state)) → at_least_zero (column row.now mark_at) ≡ mark_value state
        → result ≡ Some state }
    ensures is { IfSome result (λ it. (column row.now at ≡ Int (pos (state_number it)))
        × (at_least_zero (column row.now mark_at) ≡ mark_value it)) }
{
    let has_mark = !is_null(row, mark_at);
    match (unsigned(row, at)?, has_mark) {
        (STATE_QUEUED, false) => Some(OrderState::Queued),
        (STATE_HELD, false) => Some(OrderState::Held),
        (STATE_SETTLED, true) => Some(OrderState::Settled(number(row, mark_at)?)),
        (STATE_WITHDRAWN, false) => Some(OrderState::Withdrawn),
        (STATE_REJECTED, false) => Some(OrderState::Rejected),
        _ => None,
    }
}
