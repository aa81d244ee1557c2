//! Readings, and what is replied to them.
ghost use Rattle.rtgs_book.specs.declared.book.Book.{Book};
ghost use Rattle.rtgs_book.specs.Choice.{Choice, IsGreatest};
ghost use Rattle.rtgs_desk.specs.Holding.{Holds};
ghost use Rattle.rtgs_desk.specs.Queues.{queues_answer};
ghost use Rattle.rtgs_desk.specs.Readings.{account_answer, accounts_answer, held_answer, queue_answer, order_answer};
ghost use Rattle.rtgs_desk.specs.Readings.{status_answer, waiting_answer};
ghost use Rattle.rtgs_http_bodies.specs.desks.Written.{marks_wanted, orders_wanted, report_wanted};
ghost use Rattle.rtgs_http_bodies.specs.desks.Written.{statement_wanted};
ghost use Rattle.rtgs_http_bodies.specs.desks.Written.{StillHolds};
ghost use Rattle.rtgs_http_server.specs.exchange.Handling.{Reads, IsReadOf};
ghost use Rattle.rtgs_http_server.specs.exchange.ReplyMessages.{IsSaid, account_message, accounts_message};
ghost use Rattle.rtgs_http_server.specs.exchange.ReplyMessages.{csv_message, held_message, order_message};
ghost use Rattle.rtgs_http_server.specs.exchange.ReplyMessages.{queue_message, queues_message, reading_message};
ghost use Rattle.rtgs_http_server.specs.exchange.ReplyMessages.{result_message, status_message, text_message};
ghost use Rattle.rtgs_http_server.specs.exchange.ReplyMessages.{waiting_message};

use crate::exchange::faults::refused;
use rtgs_book::Reading;
use rtgs_book::laws::greatest_exists;
use rtgs_desk::Desk;
use rtgs_http_bodies::desks::laws::{
    all_queue_sums_fit, all_queued_values_fit, queued_values_fit, status_values_fit,
    waiting_values_fit,
};
use rtgs_http_bodies::{
    Reply, account_reply, accounts_reply, csv_reply, held_reply, marks_text, order_reply,
    orders_text, queue_reply, queues_reply, report_text, statement_text, status_reply, text_reply,
    waiting_reply,
};
use rtgs_keeper::Keeper;
use rtgs_money::{BusinessDate, Code, Reference};
use std::alloc::Global;

/// Reads what is asked, and makes the reply.
pub(in crate::exchange) fn read<K: Keeper>(
    alloc: Global,
    desk: &mut Desk<K>,
    reading: Reading,
) -> Reply
    ensures reads { K.is_honest desk.new.keeper → (book : Book) → Holds K.Keeper desk.old book
        → Reads K.Keeper book reading desk.new result }
    ensures honest { K.is_honest desk.new.keeper → K.is_honest desk.old.keeper }
{
    greatest_exists();
    desk.holds_a_sound_book();
    read_by_choice(alloc, desk, reading)
}

// The same, whatever the greatest choice is.
fn read_by_choice<K: Keeper>(alloc: Global, desk: &mut Desk<K>, reading: Reading) -> Reply
    ensures reads { K.is_honest desk.new.keeper → (book : Book) (choice : Choice) → Holds K.Keeper desk.old book
        → IsGreatest book choice → StillHolds K.Keeper book desk.new
        × IsReadOf K.Keeper (reading_message book choice reading) desk.new result }
    ensures honest { K.is_honest desk.new.keeper → K.is_honest desk.old.keeper }
{
    stands(desk);
    desk.holds_a_sound_book();
    match reading {
        Reading::Order { sender, reference } => read_order(alloc, desk, &sender, &reference),
        Reading::Account { code } => read_account(alloc, desk, &code),
        Reading::Accounts => read_accounts(alloc, desk),
        Reading::Queue { code } => read_queue(alloc, desk, &code),
        Reading::Held { code } => read_held(alloc, desk, &code),
        Reading::Waiting { code } => read_waiting(alloc, desk, &code),
        Reading::Queues => read_queues(alloc, desk),
        Reading::Status => read_status(alloc, desk),
        Reading::Statement { code, date } => read_statement(alloc, desk, &code, date),
        Reading::Report { date } => read_report(alloc, desk, date),
        Reading::Orders { date } => read_orders(alloc, desk, date),
        Reading::Marks { date } => read_marks(alloc, desk, date),
    }
}

/// A desk on which nothing is done stands as it stood.
pub(in crate::exchange) fn stands<K: Keeper>(desk: &Desk<K>)
    ensures { (book : Book) → Holds K.Keeper desk.now book → StillHolds K.Keeper book desk.now }
{
    desk.holds_a_sound_book();
}

// The order of this reference.
fn read_order<K: Keeper>(
    alloc: Global,
    desk: &mut Desk<K>,
    code: &Code,
    reference: &Reference,
) -> Reply
    ensures reads { K.is_honest desk.new.keeper → (book : Book) → Holds K.Keeper desk.old book
        → StillHolds K.Keeper book desk.new
        × IsReadOf K.Keeper (result_message order_message (order_answer book code.now reference.now)) desk.new result }
    ensures honest { K.is_honest desk.new.keeper → K.is_honest desk.old.keeper }
{
    desk.holds_a_sound_book();
    let order = match desk.order_of(code, reference) {
        Ok(order) => order,
        Err(refusal) => return refused(alloc, refusal),
    };
    match order_reply(alloc, &order) {
        Ok(reply) => reply,
        Err(_) => Reply::out_of_memory(),
    }
}

fn read_account<K: Keeper>(alloc: Global, desk: &Desk<K>, code: &Code) -> Reply
    ensures { (book : Book) → Holds K.Keeper desk.now book
        → IsSaid (result_message account_message (account_answer book code.now)) result }
{
    desk.holds_a_sound_book();
    queued_values_fit();
    let account = match desk.account(code) {
        Ok(account) => account,
        Err(refusal) => return refused(alloc, refusal),
    };
    match account_reply(alloc, &account) {
        Ok(reply) => reply,
        Err(_) => Reply::out_of_memory(),
    }
}

// The accounts of all participants.
fn read_accounts<K: Keeper>(alloc: Global, desk: &Desk<K>) -> Reply
    ensures { (book : Book) → Holds K.Keeper desk.now book
        → IsSaid (result_message (accounts_message book.day) (accounts_answer book)) result }
{
    desk.holds_a_sound_book();
    all_queued_values_fit();
    let day = match desk.day() {
        Ok(day) => day,
        Err(refusal) => return refused(alloc, refusal),
    };
    let accounts = match desk.accounts() {
        Ok(accounts) => accounts,
        Err(refusal) => return refused(alloc, refusal),
    };
    match accounts_reply(alloc, day, &accounts) {
        Ok(reply) => reply,
        Err(_) => Reply::out_of_memory(),
    }
}

fn read_queue<K: Keeper>(alloc: Global, desk: &Desk<K>, code: &Code) -> Reply
    ensures { (book : Book) → Holds K.Keeper desk.now book
        → IsSaid (result_message queue_message (queue_answer book code.now)) result }
{
    let orders = match desk.queue_of(code) {
        Ok(orders) => orders,
        Err(refusal) => return refused(alloc, refusal),
    };
    match queue_reply(alloc, &orders) {
        Ok(reply) => reply,
        Err(_) => Reply::out_of_memory(),
    }
}

// The held orders.
fn read_held<K: Keeper>(alloc: Global, desk: &Desk<K>, code: &Code) -> Reply
    ensures { (book : Book) → Holds K.Keeper desk.now book
        → IsSaid (result_message held_message (held_answer book code.now)) result }
{
    let orders = match desk.held_of(code) {
        Ok(orders) => orders,
        Err(refusal) => return refused(alloc, refusal),
    };
    match held_reply(alloc, &orders) {
        Ok(reply) => reply,
        Err(_) => Reply::out_of_memory(),
    }
}

// Why the orders wait.
fn read_waiting<K: Keeper>(alloc: Global, desk: &Desk<K>, code: &Code) -> Reply
    ensures { (book : Book) → Holds K.Keeper desk.now book
        → IsSaid (result_message waiting_message (waiting_answer book code.now)) result }
{
    desk.holds_a_sound_book();
    waiting_values_fit();
    let reading = match desk.waiting_of(code) {
        Ok(reading) => reading,
        Err(refusal) => return refused(alloc, refusal),
    };
    match waiting_reply(alloc, &reading) {
        Ok(reply) => reply,
        Err(_) => Reply::out_of_memory(),
    }
}

// The queues of all participants.
fn read_queues<K: Keeper>(alloc: Global, desk: &Desk<K>) -> Reply
    ensures { (book : Book) (choice : Choice) → Holds K.Keeper desk.now book → IsGreatest book choice
        → IsSaid (result_message (queues_message book.day) (queues_answer book choice)) result }
{
    desk.holds_a_sound_book();
    all_queue_sums_fit();
    let day = match desk.day() {
        Ok(day) => day,
        Err(refusal) => return refused(alloc, refusal),
    };
    let queues = match desk.queues() {
        Ok(queues) => queues,
        Err(refusal) => return refused(alloc, refusal),
    };
    match queues_reply(alloc, day, &queues) {
        Ok(reply) => reply,
        Err(_) => Reply::out_of_memory(),
    }
}

// How the desk stands.
fn read_status<K: Keeper>(alloc: Global, desk: &Desk<K>) -> Reply
    ensures { (book : Book) → Holds K.Keeper desk.now book
        → IsSaid (result_message status_message (status_answer book)) result }
{
    desk.holds_a_sound_book();
    status_values_fit();
    let status = match desk.status() {
        Ok(status) => status,
        Err(refusal) => return refused(alloc, refusal),
    };
    match status_reply(alloc, &status) {
        Ok(reply) => reply,
        Err(_) => Reply::out_of_memory(),
    }
}

// The statement of a date.
fn read_statement<K: Keeper>(
    alloc: Global,
    desk: &mut Desk<K>,
    code: &Code,
    date: BusinessDate,
) -> Reply
    ensures reads { K.is_honest desk.new.keeper → (book : Book) → Holds K.Keeper desk.old book
        → StillHolds K.Keeper book desk.new × IsReadOf K.Keeper
        (result_message text_message (statement_wanted book code.now date)) desk.new result }
    ensures honest { K.is_honest desk.new.keeper → K.is_honest desk.old.keeper }
{
    desk.holds_a_sound_book();
    let text = match statement_text(alloc, desk, code, date) {
        Ok(text) => text,
        Err(refusal) => return refused(alloc, refusal),
    };
    match text_reply(alloc, &text) {
        Ok(reply) => reply,
        Err(_) => Reply::out_of_memory(),
    }
}

fn read_report<K: Keeper>(alloc: Global, desk: &mut Desk<K>, date: BusinessDate) -> Reply
    ensures reads { K.is_honest desk.new.keeper → (book : Book) → Holds K.Keeper desk.old book
        → StillHolds K.Keeper book desk.new × IsReadOf K.Keeper
        (result_message text_message (report_wanted book date)) desk.new result }
    ensures honest { K.is_honest desk.new.keeper → K.is_honest desk.old.keeper }
{
    desk.holds_a_sound_book();
    let text = match report_text(alloc, desk, date) {
        Ok(text) => text,
        Err(refusal) => return refused(alloc, refusal),
    };
    match text_reply(alloc, &text) {
        Ok(reply) => reply,
        Err(_) => Reply::out_of_memory(),
    }
}

// The orders of a date, as CSV.
fn read_orders<K: Keeper>(alloc: Global, desk: &mut Desk<K>, date: BusinessDate) -> Reply
    ensures reads { K.is_honest desk.new.keeper → (book : Book) → Holds K.Keeper desk.old book
        → StillHolds K.Keeper book desk.new × IsReadOf K.Keeper
        (result_message csv_message (orders_wanted book date)) desk.new result }
    ensures honest { K.is_honest desk.new.keeper → K.is_honest desk.old.keeper }
{
    desk.holds_a_sound_book();
    let text = match orders_text(alloc, desk, date) {
        Ok(text) => text,
        Err(refusal) => return refused(alloc, refusal),
    };
    match csv_reply(alloc, &text) {
        Ok(reply) => reply,
        Err(_) => Reply::out_of_memory(),
    }
}

// The marks of a date, as CSV.
fn read_marks<K: Keeper>(alloc: Global, desk: &mut Desk<K>, date: BusinessDate) -> Reply
    ensures reads { K.is_honest desk.new.keeper → (book : Book) → Holds K.Keeper desk.old book
        → StillHolds K.Keeper book desk.new × IsReadOf K.Keeper
        (result_message csv_message (marks_wanted book date)) desk.new result }
    ensures honest { K.is_honest desk.new.keeper → K.is_honest desk.old.keeper }
{
    desk.holds_a_sound_book();
    let text = match marks_text(alloc, desk, date) {
        Ok(text) => text,
        Err(refusal) => return refused(alloc, refusal),
    };
    match csv_reply(alloc, &text) {
        Ok(reply) => reply,
        Err(_) => Reply::out_of_memory(),
    }
}
