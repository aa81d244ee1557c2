//! A book in memory.
ghost use Rattle.std.specs.Prelude.{◌≡◌, ◌≢◌, ◌+◌, ◌<◌, ◌≤◌, false, not, List, [], ◌∷◌, ◌++◌, map, filter, count_by};
ghost use Rattle.std.specs.Prelude.{Err, IfOk, IfErr, OnOk, if◌then◌else◌};
ghost use Rattle.std.specs.List.{find};
ghost use Rattle.std.specs.Vec.{vec_len, vec_capacity};
ghost use Rattle.rtgs_book.specs.declared.book.Book.{Book as BookSpec};
ghost use Rattle.rtgs_book.specs.declared.fault.Fault.{Fault};
ghost use Rattle.rtgs_book.specs.declared.order.Order.{Order as OrderSpec};
ghost use Rattle.rtgs_book.specs.declared.participant.Participant.{Participant as ParticipantSpec};
ghost use Rattle.rtgs_book.specs.declared.change.RowChange.{RowChange as RowChangeSpec};
ghost use Rattle.rtgs_book.specs.Books.{is_held, new_book};
ghost use Rattle.rtgs_book.specs.Changes.{changed, with_row};
ghost use Rattle.rtgs_book.specs.Commands.{has_number, is_before, is_held_with, entered};
ghost use Rattle.rtgs_book.specs.Judgement.{Explains};
ghost use Rattle.rtgs_book.specs.Lookup.{has_code, is_order_named, is_posting_named};
ghost use Rattle.rtgs_book.specs.Ranges.{Fits};
ghost use Rattle.rtgs_book.specs.Settle.{altered, restated};
ghost use Rattle.rtgs_book.specs.Soundness.{AreNumbered, OrdersAreNumbered, IsSound};
ghost use Rattle.rtgs_book.specs.cores.Nexts.{is_posting_after, is_order_after, is_mark_after};
ghost use Rattle.rtgs_tests_desks.specs.in_memory.Memory.{book_of, KeepsBook, AreInCodeOrder, ListsHaveRoom};
ghost use Rattle.rtgs_tests_desks.specs.in_memory.Memory.{adds_participant};
ghost use Rattle.rtgs_tests_desks.specs.in_memory.Memory.{adds_posting};
ghost use Rattle.rtgs_tests_desks.specs.in_memory.Memory.{adds_order, adds_mark};

use rtgs_book::laws::new_book_is_sound;
use rtgs_book::{
    Book, Change, Core, Day, Fault, Mark, Order, OrderState, Participant, Phase, Posting,
    RowChange, Rows,
};
use rtgs_keeper::{CommitFault, Keeper};
use rtgs_money::{BusinessDate, Code, Credit, Reference};
use rtgs_soundness::{check, core_of};
use std::alloc::{AllocError, Global};

/// Keeps a book in memory alone, so that nothing is left of it once the keeper is gone. It refuses where memory is
/// refused, and never fails.
#[derive(Debug, Drop)]
pub struct MemoryKeeper {
    participants: Vec<Participant>,
    postings: Vec<Posting>,
    orders: Vec<Order>,
    marks: Vec<Mark>,
    day: Day,
}

impl MemoryKeeper {
    /// Keeps the book of a new desk: nothing recorded, and closed. Takes no memory yet.
    pub fn new(alloc: Global) -> MemoryKeeper
        ensures { KeepsBook result new_book }
    {
        new_book_is_sound();
        MemoryKeeper {
            participants: Vec::new(alloc),
            postings: Vec::new(alloc),
            orders: Vec::new(alloc),
            marks: Vec::new(alloc),
            day: Day {
                date: None,
                phase: Phase::Closed,
                automatic: false,
            },
        }
    }

    /// Gives a copy of the book, once it is seen to be sound. Else the fault names the first rule that it breaks, or
    /// memory was refused. Nothing changes.
    pub fn load(&mut self, alloc: Global) -> Result<Book, Fault>
        ensures given { (book : BookSpec) → KeepsBook self.old book → IfOk result (λ loaded. loaded ≡ book) }
        ensures accepted { (book : BookSpec) → KeepsBook self.old book
            → IfErr result (λ fault. fault ≡ Fault.OutOfMemory) }
        ensures explained { IfErr result (Explains (book_of self.old)) }
        ensures shown { IfOk result (λ book. book ≡ book_of self.old) }
        ensures kept { IfOk result (KeepsBook self.new) }
        ensures fits { IfOk result Fits }
        ensures same { self.new ≡ self.old }
        ensures fault { result ≢ Err Fault.StoreFault }
    {
        let book = self.copied(alloc)?;
        check(&book)?;
        Ok(book)
    }

    // A copy of the book.
    fn copied(&self, alloc: Global) -> Result<Book, AllocError>
        ensures { IfOk result (λ book. book ≡ book_of self.now) }
    {
        let participants = Vec::from_slice(alloc, self.participants.as_slice())?;
        let postings = Vec::from_slice(alloc, self.postings.as_slice())?;
        let orders = Vec::from_slice(alloc, self.orders.as_slice())?;
        let marks = Vec::from_slice(alloc, self.marks.as_slice())?;
        Ok(Book {
            participants: Rows::from_vec(participants),
            postings: Rows::from_vec(postings),
            orders: Rows::from_vec(orders),
            marks: Rows::from_vec(marks),
            day: self.day,
        })
    }

    // Makes room for the rows that are added. Nothing else changes.
    fn reserve(&mut self, rows: &[RowChange]) -> Result<(), AllocError>
        ensures room { OnOk result (ListsHaveRoom self.new rows.now) }
        ensures same { book_of self.new ≡ book_of self.old }
    {
        self.participants.reserve(added_participants(rows))?;
        self.postings.reserve(added_postings(rows))?;
        self.orders.reserve(added_orders(rows))?;
        self.marks.reserve(added_marks(rows))?;
        Ok(())
    }

    // Makes the rows one after another, in the order in which they stand.
    fn apply_all(&mut self, rows: &[RowChange])
        requires { ListsHaveRoom self.old rows.now }
        ensures { IsSound (book_of self.old) → IsSound (changed (book_of self.old) rows.now)
            → book_of self.new ≡ changed (book_of self.old) rows.now }
    {
        for row in rows {
            self.apply(row);
        }
    }

    // Makes one row.
    #[tactic(auto, unfolding(rtgs_book::specs::Commands::with_participant, rtgs_book::specs::Commands::with_credit, rtgs_book::specs::Commands::with_state, rtgs_book::specs::Commands::let_in))]
    fn apply(&mut self, row: &RowChange)
        requires { ListsHaveRoom self.old (row.now ∷ []) }
        ensures made { AreInCodeOrder self.old.participants.items → OrdersAreNumbered (book_of self.old)
            → book_of self.new ≡ with_row (book_of self.old) row.now }
        ensures room { (rows : List RowChangeSpec) → ListsHaveRoom self.old (row.now ∷ rows) → ListsHaveRoom self.new
            rows }
    {
        match row {
            RowChange::AddParticipant(participant) => {
                insert_in_code_order(&mut self.participants, *participant);
            }
            RowChange::AddPosting(posting) => self.postings.push_reserved(*posting),
            RowChange::AddOrder(order) => self.orders.push_reserved(*order),
            RowChange::AddMark(mark) => self.marks.push_reserved(*mark),
            RowChange::SetCredit { code, credit } => {
                set_credit(self.participants.as_mut_slice(), code, *credit);
            }
            RowChange::SetBalance { .. } => {}
            RowChange::SetState { number, state } => {
                set_state(self.orders.as_mut_slice(), *number, *state);
            }
            RowChange::EnterQueue { number, date } => {
                enter_queue(self.orders.as_mut_slice(), *number, *date);
            }
            RowChange::SetDay(
                Day {
                    date,
                    phase,
                    automatic,
                },
            ) => {
                self.day.date = *date;
                self.day.phase = *phase;
                self.day.automatic = *automatic;
            }
        }
    }
}

impl Keeper for MemoryKeeper {
    ghost use Rattle.std.proofs.Common.{sym, ◌∙◌};
    ghost use Rattle.rtgs_book.specs.Judgement.{Explains};
    ghost use Rattle.rtgs_book.specs.declared.book.Book.{Book};
    ghost use Rattle.rtgs_tests_desks.specs.in_memory.Memory.{book_of};

    ghost content = { KeepsBook };

    ghost leaves = { KeepsBook };

    ghost has_failed = { λ k. false };

    ghost has_tables = { λ k. Unit {0} };

    ghost is_empty = { λ k. ⊥ };

    ghost is_whole = { λ k. (book : Book) × KeepsBook k book };

    ghost shows = { λ k book. book ≡ book_of k };

    ghost leaves_no_more = { λ old new. (book : Book) → KeepsBook new book → KeepsBook old book };

    ghost explains = { λ k. Explains (book_of k) };

    ghost is_honest = { λ k. Unit {0} };

    ghost still = { λ k. record {
      settled = λ book other kept left. sym left.0 ∙ kept.0;
      stays = λ book kept. kept;
      tabled = λ book kept. tt;
      whole = λ book kept. (book, kept);
      unmoved = λ book kept. kept;
    } };

    fn core(&mut self, alloc: Global) -> Result<Core, Fault> {
        let book = self.load(alloc)?;
        Ok(core_of(alloc, &book)?)
    }

    fn find_order(&mut self, sender: &Code, reference: &Reference) -> Result<Option<Order>, Fault> {
        Ok(order_named(self.orders.as_slice(), sender, reference))
    }

    fn find_posting(&mut self, reference: &Reference) -> Result<Option<Posting>, Fault> {
        Ok(posting_named(self.postings.as_slice(), reference))
    }

    fn next_posting(&mut self, date: BusinessDate, number: u64) -> Result<Option<Posting>, Fault> {
        Ok(posting_after(self.postings.as_slice(), date, number))
    }

    fn next_order(&mut self, date: BusinessDate, number: u64) -> Result<Option<Order>, Fault> {
        Ok(order_after(self.orders.as_slice(), date, number))
    }

    fn next_mark(&mut self, date: BusinessDate, number: u64) -> Result<Option<Mark>, Fault> {
        Ok(mark_after(self.marks.as_slice(), date, number))
    }

    fn commit(&mut self, change: &Change) -> Result<(), CommitFault> {
        let rows = change.as_slice();
        if self.reserve(rows).is_err() {
            return Err(CommitFault::OutOfMemory);
        }
        self.apply_all(rows);
        Ok(())
    }
}

// The order that the sender gave this reference, if there is one.
fn order_named(orders: &[Order], sender: &Code, reference: &Reference) -> Option<Order>
    ensures { result ≡ find (is_order_named sender.now reference.now) orders.now }
{
    orders.iter().copied().find(|order| order.sender == *sender && order.reference == *reference)
}

// The posting with this reference, if there is one.
fn posting_named(postings: &[Posting], reference: &Reference) -> Option<Posting>
    ensures { result ≡ find (is_posting_named reference.now) postings.now }
{
    postings
        .iter()
        .copied()
        .find(|posting| posting.reference == *reference)
}

// The first posting of the date with a number above this one.
fn posting_after(postings: &[Posting], date: BusinessDate, number: u64) -> Option<Posting>
    ensures { result ≡ find (is_posting_after date number) postings.now }
{
    postings.iter().copied().find(|posting| posting.date == Some(date) && number < posting.number)
}

// The first order of the date with a number above this one.
fn order_after(orders: &[Order], date: BusinessDate, number: u64) -> Option<Order>
    ensures { result ≡ find (is_order_after date number) orders.now }
{
    orders
        .iter()
        .copied()
        .find(|order| order.date == date && number < order.number)
}

// The first mark of the date with a number above this one.
fn mark_after(marks: &[Mark], date: BusinessDate, number: u64) -> Option<Mark>
    ensures { result ≡ find (is_mark_after date number) marks.now }
{
    marks
        .iter()
        .copied()
        .find(|mark| mark.date == date && number < mark.number)
}

// How many participants the rows add.
fn added_participants(rows: &[RowChange]) -> usize
    ensures { result ≡ count_by adds_participant rows.now }
{
    rows.iter()
        .filter(|row| matches!(row, RowChange::AddParticipant(_)))
        .count()
}

// How many postings the rows add.
fn added_postings(rows: &[RowChange]) -> usize
    ensures { result ≡ count_by adds_posting rows.now }
{
    rows.iter()
        .filter(|row| matches!(row, RowChange::AddPosting(_)))
        .count()
}

// How many orders the rows add.
fn added_orders(rows: &[RowChange]) -> usize
    ensures { result ≡ count_by adds_order rows.now }
{
    rows.iter()
        .filter(|row| matches!(row, RowChange::AddOrder(_)))
        .count()
}

// How many marks the rows add.
fn added_marks(rows: &[RowChange]) -> usize
    ensures { result ≡ count_by adds_mark rows.now }
{
    rows.iter()
        .filter(|row| matches!(row, RowChange::AddMark(_)))
        .count()
}

// Puts the participant at its place. There is room for it.
fn insert_in_code_order(participants: &mut Vec<Participant>, new: Participant)
    requires { vec_len participants.old < vec_capacity participants.old }
    ensures items { AreInCodeOrder participants.old.items
        → participants.new.items ≡ filter (λ p. is_before p.code new.code) participants.old.items ++ new
        ∷ filter (λ p. not (is_before p.code new.code)) participants.old.items }
    ensures len { vec_len participants.new ≡ vec_len participants.old + 1 }
    ensures capacity { vec_capacity participants.old ≤ vec_capacity participants.new }
{
    let place = participants
        .as_slice()
        .partition_point(|participant| participant.code < new.code);
    participants.insert(place, new).unwrap();
}

// Sets the credit of the participant with this code.
fn set_credit(participants: &mut [Participant], code: &Code, credit: Credit)
    ensures { participants.new
        ≡ map (λ (p : ParticipantSpec). if has_code code.now p then record p { credit = credit } else p)
        participants.old }
{
    for participant in participants.iter_mut() {
        if participant.code == *code {
            participant.credit = credit;
        }
    }
}

// Sets the state of the order with this number.
fn set_state(orders: &mut [Order], number: u64, state: OrderState)
    ensures { AreNumbered (map (λ (o : OrderSpec). o.number) orders.old)
        → orders.new ≡ map (restated (has_number number) state) orders.old }
{
    if (1..=orders.len() as u64).contains(&number) {
        let order = &mut orders[number as usize - 1];
        order.state = state;
    }
}

// Lets the order with this number into its queue on this date, if it is held.
fn enter_queue(orders: &mut [Order], number: u64, date: BusinessDate)
    ensures { AreNumbered (map (λ (o : OrderSpec). o.number) orders.old)
        → orders.new ≡ map (altered (is_held_with number) (entered date)) orders.old }
{
    if (1..=orders.len() as u64).contains(&number) {
        enter(&mut orders[number as usize - 1], date);
    }
}

// Lets the order into its queue on this date, if it is held.
fn enter(order: &mut Order, date: BusinessDate)
    ensures { order.new ≡ altered is_held (entered date) order.old }
{
    if order.state == OrderState::Held {
        order.state = OrderState::Queued;
        order.date = date;
    }
}
