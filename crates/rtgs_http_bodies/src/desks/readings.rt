//! The whole text of what a desk says of its book, made in memory. (A statement that is printed is written row by row
//! instead, by `write_statement`.)
ghost use Rattle.std.specs.Prelude.{◌≡◌, ◌≢◌, ◌⊎◌, ◌++◌, ◌∷◌, [], true, Ok, Err, None, IfOk};
ghost use Rattle.rtgs_book.specs.declared.book.Book.{Book};
ghost use Rattle.rtgs_book.specs.Choice.{Choice, IsGreatest};
ghost use Rattle.rtgs_book.specs.declared.refusal.Refusal.{Refusal};
ghost use Rattle.rtgs_book.specs.Lookup.{participant_of};
ghost use Rattle.rtgs_desk.specs.Holding.{Holds, TellsFaults};
ghost use Rattle.rtgs_desk.specs.Queues.{queues_answer};
ghost use Rattle.rtgs_desk.specs.Readings.{Tells, account_answer, accounts_answer, held_answer, order_answer};
ghost use Rattle.rtgs_desk.specs.Readings.{queue_answer, status_answer, waiting_answer};
ghost use Rattle.rtgs_http_bodies.specs.Readings.{order_data, queue_data};
ghost use Rattle.rtgs_http_bodies.specs.desks.Accounts.{account_data, accounts_data};
ghost use Rattle.rtgs_http_bodies.specs.desks.Readings.{ReadingFails, json_line, text_wanted};
ghost use Rattle.rtgs_http_bodies.specs.desks.Queues.{queues_data};
ghost use Rattle.rtgs_http_bodies.specs.desks.Status.{status_data};
ghost use Rattle.rtgs_http_bodies.specs.desks.Waiting.{held_list_data, waiting_data};
ghost use Rattle.rtgs_http_bodies.specs.desks.Written.{IsLost, LeavesBook, statement_wanted, report_wanted};
ghost use Rattle.rtgs_http_bodies.specs.desks.Written.{refusal_of_text};

use crate::desks::account::account_text;
use crate::desks::accounts::accounts_text;
use crate::desks::laws::{
    all_queue_sums_fit, all_queued_values_fit, queued_values_fit, status_values_fit,
    waiting_values_fit,
};
use crate::desks::listings::{marks_text, orders_text};
use crate::desks::queues::queues_text;
use crate::desks::status::status_text;
use crate::desks::texts::{write_report, write_statement};
use crate::desks::waiting::{held_text, waiting_text};
use crate::{order_text, queue_text};
use rtgs_book::{Reading, Refusal};
use rtgs_desk::Desk;
use rtgs_keeper::Keeper;
use rtgs_money::{BusinessDate, Code, Reference};
use rtgs_statements::BookTextFault;
use std::alloc::{AllocError, Global};

/// The text of a reading, as the book that the desk holds has it: a statement, a report, the orders or the marks of a
/// date, or JSON and a line feed. Refused as the desk refuses the reading, or for lack of memory. The readings of an
/// order, a statement and a date ask the store, and can meet a fault of it, except for a code that nobody has. Nothing
/// is done to the book.
pub fn text_of<K: Keeper>(
    alloc: Global,
    desk: &mut Desk<K>,
    reading: &Reading,
) -> Result<Vec<u8>, Refusal>
    ensures answered { K.is_honest desk.new.keeper → (book : Book) → Holds K.Keeper desk.old book
        → (choice : Choice) → IsGreatest book choice
        → Tells (λ text. text.items) (text_wanted book choice reading.now) result
        ⊎ ReadingFails K.Keeper book reading.now desk.new result }
    ensures faults { TellsFaults K.Keeper desk.old desk.new result }
    // A reading does nothing to the book: the desk holds it unless the store failed, and a crash leaves it and no
    // other, whole.
    ensures leaves { LeavesBook K.Keeper desk.old desk.new }
{
    desk.holds_a_sound_book();
    match *reading {
        Reading::Order { sender, reference } => order_line(alloc, desk, &sender, &reference),
        Reading::Account { code } => account_line(alloc, desk, &code),
        Reading::Accounts => accounts_line(alloc, desk),
        Reading::Queue { code } => queue_line(alloc, desk, &code),
        Reading::Held { code } => held_line(alloc, desk, &code),
        Reading::Waiting { code } => waiting_line(alloc, desk, &code),
        Reading::Queues => queues_line(alloc, desk),
        Reading::Status => status_line(alloc, desk),
        Reading::Statement { code, date } => statement_text(alloc, desk, &code, date),
        Reading::Report { date } => report_text(alloc, desk, date),
        Reading::Orders { date } => orders_text(alloc, desk, date),
        Reading::Marks { date } => marks_text(alloc, desk, date),
    }
}

// What is shown of an order, as a line. The book stays as it is.
fn order_line<K: Keeper>(
    alloc: Global,
    desk: &mut Desk<K>,
    sender: &Code,
    reference: &Reference,
) -> Result<Vec<u8>, Refusal>
    ensures answered { K.is_honest desk.new.keeper → (book : Book) → Holds K.Keeper desk.old book
        → Tells (λ text. text.items) (json_line order_data (order_answer book sender.now reference.now)) result
        ⊎ ((participant_of book sender.now ≢ None)
        × ((result ≡ Err Refusal.OutOfMemory) ⊎ IsLost K.Keeper desk.new result)) }
    ensures faults { TellsFaults K.Keeper desk.old desk.new result }
    ensures leaves { LeavesBook K.Keeper desk.old desk.new }
{
    let order = match desk.order_of(sender, reference) {
        Ok(order) => order,
        Err(refusal) => return Err(refusal),
    };
    Ok(ended(order_text(alloc, &order)?)?)
}

// What is shown of an account, as a line.
fn account_line<K: Keeper>(alloc: Global, desk: &Desk<K>, code: &Code) -> Result<Vec<u8>, Refusal>
    ensures answered { (book : Book) → Holds K.Keeper desk.now book
        → Tells (λ text. text.items) (json_line account_data (account_answer book code.now)) result }
    ensures failed { K.has_failed desk.now.keeper ≡ true → result ≡ Err Refusal.Failed }
    ensures only_failed { result ≡ Err Refusal.Failed → K.has_failed desk.now.keeper ≡ true }
    ensures no_fault { result ≢ Err Refusal.StoreFault }
{
    desk.holds_a_sound_book();
    queued_values_fit();
    let account = desk.account(code)?;
    Ok(ended(account_text(alloc, &account)?)?)
}

// What is shown of all accounts, as a line.
fn accounts_line<K: Keeper>(alloc: Global, desk: &Desk<K>) -> Result<Vec<u8>, Refusal>
    ensures answered { (book : Book) → Holds K.Keeper desk.now book
        → Tells (λ text. text.items) (json_line (accounts_data book.day) (accounts_answer book)) result }
    ensures failed { K.has_failed desk.now.keeper ≡ true → result ≡ Err Refusal.Failed }
    ensures only_failed { result ≡ Err Refusal.Failed → K.has_failed desk.now.keeper ≡ true }
    ensures no_fault { result ≢ Err Refusal.StoreFault }
{
    desk.holds_a_sound_book();
    all_queued_values_fit();
    let day = desk.day()?;
    let accounts = desk.accounts()?;
    Ok(ended(accounts_text(alloc, day, &accounts)?)?)
}

// What is shown of a queue, as a line.
fn queue_line<K: Keeper>(alloc: Global, desk: &Desk<K>, code: &Code) -> Result<Vec<u8>, Refusal>
    ensures answered { (book : Book) → Holds K.Keeper desk.now book
        → Tells (λ text. text.items) (json_line queue_data (queue_answer book code.now)) result }
    ensures failed { K.has_failed desk.now.keeper ≡ true → result ≡ Err Refusal.Failed }
    ensures only_failed { result ≡ Err Refusal.Failed → K.has_failed desk.now.keeper ≡ true }
    ensures no_fault { result ≢ Err Refusal.StoreFault }
{
    let orders = desk.queue_of(code)?;
    Ok(ended(queue_text(alloc, &orders)?)?)
}

// What is shown of held orders, as a line.
fn held_line<K: Keeper>(alloc: Global, desk: &Desk<K>, code: &Code) -> Result<Vec<u8>, Refusal>
    ensures answered { (book : Book) → Holds K.Keeper desk.now book
        → Tells (λ text. text.items) (json_line held_list_data (held_answer book code.now)) result }
    ensures failed { K.has_failed desk.now.keeper ≡ true → result ≡ Err Refusal.Failed }
    ensures only_failed { result ≡ Err Refusal.Failed → K.has_failed desk.now.keeper ≡ true }
    ensures no_fault { result ≢ Err Refusal.StoreFault }
{
    let orders = desk.held_of(code)?;
    Ok(ended(held_text(alloc, &orders)?)?)
}

// What is shown of why orders wait, as a line.
fn waiting_line<K: Keeper>(alloc: Global, desk: &Desk<K>, code: &Code) -> Result<Vec<u8>, Refusal>
    ensures answered { (book : Book) → Holds K.Keeper desk.now book
        → Tells (λ text. text.items) (json_line waiting_data (waiting_answer book code.now)) result }
    ensures failed { K.has_failed desk.now.keeper ≡ true → result ≡ Err Refusal.Failed }
    ensures only_failed { result ≡ Err Refusal.Failed → K.has_failed desk.now.keeper ≡ true }
    ensures no_fault { result ≢ Err Refusal.StoreFault }
{
    desk.holds_a_sound_book();
    waiting_values_fit();
    let reading = desk.waiting_of(code)?;
    Ok(ended(waiting_text(alloc, &reading)?)?)
}

// What is shown of all queues, as a line.
fn queues_line<K: Keeper>(alloc: Global, desk: &Desk<K>) -> Result<Vec<u8>, Refusal>
    ensures answered { (book : Book) (choice : Choice) → Holds K.Keeper desk.now book → IsGreatest book choice
        → Tells (λ text. text.items) (json_line (queues_data book.day) (queues_answer book choice)) result }
    ensures failed { K.has_failed desk.now.keeper ≡ true → result ≡ Err Refusal.Failed }
    ensures only_failed { result ≡ Err Refusal.Failed → K.has_failed desk.now.keeper ≡ true }
    ensures no_fault { result ≢ Err Refusal.StoreFault }
{
    desk.holds_a_sound_book();
    all_queue_sums_fit();
    let day = desk.day()?;
    let queues = desk.queues()?;
    Ok(ended(queues_text(alloc, day, &queues)?)?)
}

// What is shown of the whole desk, as a line.
fn status_line<K: Keeper>(alloc: Global, desk: &Desk<K>) -> Result<Vec<u8>, Refusal>
    ensures answered { (book : Book) → Holds K.Keeper desk.now book
        → Tells (λ text. text.items) (json_line status_data (status_answer book)) result }
    ensures failed { K.has_failed desk.now.keeper ≡ true → result ≡ Err Refusal.Failed }
    ensures only_failed { result ≡ Err Refusal.Failed → K.has_failed desk.now.keeper ≡ true }
    ensures no_fault { result ≢ Err Refusal.StoreFault }
{
    desk.holds_a_sound_book();
    status_values_fit();
    let status = desk.status()?;
    Ok(ended(status_text(alloc, &status)?)?)
}

// The text with a line feed behind it.
fn ended(text: Vec<u8>) -> Result<Vec<u8>, AllocError>
    ensures { IfOk result (λ line. line.items ≡ text.items ++ 10 ∷ []) }
{
    let mut line = text;
    line.push(b'\n')?;
    Ok(line)
}

/// The statement of a participant for a date, gathered in memory. The book stays as it is.
pub fn statement_text<K: Keeper>(
    alloc: Global,
    desk: &mut Desk<K>,
    code: &Code,
    date: BusinessDate,
) -> Result<Vec<u8>, Refusal>
    ensures answered { K.is_honest desk.new.keeper → (book : Book) → Holds K.Keeper desk.old book
        → Tells (λ text. text.items) (statement_wanted book code.now date) result
        ⊎ ((participant_of book code.now ≢ None) × IsLost K.Keeper desk.new result) }
    ensures faults { TellsFaults K.Keeper desk.old desk.new result }
    ensures leaves { LeavesBook K.Keeper desk.old desk.new }
{
    let mut text = Vec::new(alloc);
    match write_statement(alloc, &mut text, desk, code, date) {
        Ok(()) => Ok(text),
        Err(fault) => Err(refusal_of(fault)),
    }
}

/// The report of a day, gathered in memory. The book stays as it is.
pub fn report_text<K: Keeper>(
    alloc: Global,
    desk: &mut Desk<K>,
    date: BusinessDate,
) -> Result<Vec<u8>, Refusal>
    ensures answered { K.is_honest desk.new.keeper → (book : Book) → Holds K.Keeper desk.old book
        → Tells (λ text. text.items) (report_wanted book date) result ⊎ IsLost K.Keeper desk.new result }
    ensures faults { TellsFaults K.Keeper desk.old desk.new result }
    ensures leaves { LeavesBook K.Keeper desk.old desk.new }
{
    let mut text = Vec::new(alloc);
    match write_report(alloc, &mut text, desk, date) {
        Ok(()) => Ok(text),
        Err(fault) => Err(refusal_of(fault)),
    }
}

/// Why a text was not made in memory. A writer in memory fails where memory is refused, and nowhere else.
pub(in crate::desks) fn refusal_of(fault: BookTextFault) -> Refusal
    ensures { result ≡ refusal_of_text fault }
{
    match fault {
        BookTextFault::Refused(refusal) => refusal,
        BookTextFault::Text(_) => Refusal::OutOfMemory,
    }
}
