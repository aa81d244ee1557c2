//! Lines of orders and of marks, as CSV. No field can hold a comma, a quote or a line break (they are codes,
//! references, dates, digits and words), so a line is its fields with commas between them.
ghost use Rattle.std.specs.Prelude.{◌≡◌, IfOk, string_bytes};
ghost use Rattle.rtgs_statements.specs.Listings.{line_of_order, order_line, mark_line};

use itoa::Buffer;
use rtgs_book::{Mark, Order, OrderState};
use std::alloc::{AllocError, Global};
use std::fmt::Write;

/// The line of an order, with its amount in cents, its due date where it has one, and its mark where it has settled.
/// The only error is lack of memory.
pub fn order_line(alloc: Global, order: &Order) -> Result<String, AllocError>
    ensures { IfOk result (λ line. string_bytes line ≡ order_line order.now) }
{
    let mut digits = Buffer::new();
    let mark = match order.state {
        OrderState::Settled(mark) => digits.format(mark),
        _ => "",
    };
    match order.due {
        Some(due) => line_of_order(alloc, order, due.text().as_str(), mark),
        None => line_of_order(alloc, order, "", mark),
    }
}

/// The line of a mark, with its value in cents. The only error is lack of memory.
pub fn mark_line(alloc: Global, mark: &Mark) -> Result<String, AllocError>
    ensures { IfOk result (λ line. string_bytes line ≡ mark_line mark.now) }
{
    let number = mark.number;
    let count = mark.count;
    let value = mark.value.cents();
    let mut line = String::new(alloc);
    writeln!(line, "{number},{count},{value}")?;
    Ok(line)
}

// The line of an order that shows this due date and this mark.
fn line_of_order(alloc: Global, order: &Order, due: &str, mark: &str) -> Result<String, AllocError>
    ensures { IfOk result (λ line. string_bytes line ≡ line_of_order order.now due.now mark.now) }
{
    let number = order.number;
    let sender = order.sender.as_str();
    let reference = order.reference.as_str();
    let receiver = order.receiver.as_str();
    let amount = order.amount.cents();
    let state = order.state.word();
    let mut line = String::new(alloc);
    write!(line, "{number},{sender},{reference},")?;
    write!(line, "{receiver},{amount},{due},")?;
    writeln!(line, "{state},{mark}")?;
    Ok(line)
}
