//! Lines of a statement, of a report and of what is listed of a date.
ghost use Rattle.std.specs.Prelude.{◌≡◌, IfOk, string_bytes};
ghost use Rattle.std.specs.Str.{IsAscii};
ghost use Rattle.rtgs_money.specs.Units.{units_text};
ghost use Rattle.rtgs_statements.specs.Texts.{line_text, sum_columns, count_columns, value_columns, account_columns};

use crate::listed::{mark_line, order_line};
use crate::row::Row;
use crate::sums::Sums;
use crate::total::Total;
use rtgs_book::{Mark, Order, Standing};
use rtgs_money::{BusinessDate, Code, Units};
use std::alloc::{AllocError, Global};
use std::fmt::Write;

/// One line of a statement, of a report or of what is listed of a date.
#[derive(Clone, Copy, Debug, PartialEq, Eq)]
pub enum Line {
    /// The first line of a statement.
    StatementOf(Code, BusinessDate),
    /// A posting or an order in a statement.
    Record(Row),
    /// A sum of a statement.
    Sum(Total, Units),
    /// The first line of a report.
    ReportOf(BusinessDate),
    /// A participant's sums.
    Account(Code, Sums),
    /// How many orders stand so, and their value.
    Orders(Standing, usize, Units),
    /// How many marks there are.
    Marks(usize),
    /// The first line of a list of orders.
    OrdersHeader,
    /// An order in a list.
    ListedOrder(Order),
    /// The first line of a list of marks.
    MarksHeader,
    /// A mark in a list.
    ListedMark(Mark),
}

impl Line {
    /// The line's text, with its line feed.
    pub fn text(&self, alloc: Global) -> Result<String, AllocError>
        ensures { IfOk result (λ text. string_bytes text ≡ line_text self.now) }
    {
        match *self {
            Line::StatementOf(code, date) => format!(in alloc; "statement {code} {date}\n"),
            Line::Record(row) => row.text(alloc),
            Line::Sum(total, cents) => sum_columns(alloc, total.text(), cents.text().as_str()),
            Line::ReportOf(date) => format!(in alloc; "report {date}\n"),
            Line::Account(code, sums) => account_text(alloc, &code, sums),
            Line::Orders(standing, count, value) => {
                value_columns(alloc, standing.word(), count, value.text().as_str())
            }
            Line::Marks(count) => count_columns(alloc, "marks", count),
            Line::OrdersHeader => String::from_str(alloc, ORDERS_HEADER),
            Line::ListedOrder(order) => order_line(alloc, &order),
            Line::MarksHeader => String::from_str(alloc, MARKS_HEADER),
            Line::ListedMark(mark) => mark_line(alloc, &mark),
        }
    }
}

const ORDERS_HEADER: &str = "number,sender,reference,receiver,amount,due,state,mark\n";

const MARKS_HEADER: &str = "number,count,value\n";

// A participant's code and its sums.
fn account_text(alloc: Global, code: &Code, sums: Sums) -> Result<String, AllocError>
    ensures { IfOk result (λ text. string_bytes text ≡ account_columns code.now (units_text sums.posted)
        (units_text sums.sent) (units_text sums.received)) }
{
    let posted = Units::new(sums.posted).text();
    let sent = Units::new(sums.sent).text();
    let received = Units::new(sums.received).text();
    account_columns(
        alloc,
        code.as_str(),
        posted.as_str(),
        sent.as_str(),
        received.as_str(),
    )
}

fn sum_columns(alloc: Global, label: &str, sum: &str) -> Result<String, AllocError>
    requires label { IsAscii label.now }
    requires sum { IsAscii sum.now }
    ensures { IfOk result (λ text. string_bytes text ≡ sum_columns label.now sum.now) }
{
    format!(in alloc; "{label:<10} {sum:>30}\n")
}

fn count_columns(alloc: Global, label: &str, count: usize) -> Result<String, AllocError>
    requires { IsAscii label.now }
    ensures { IfOk result (λ text. string_bytes text ≡ count_columns label.now count) }
{
    format!(in alloc; "{label:<10} {count:>9}\n")
}

// A label, a count and a value.
fn value_columns(
    alloc: Global,
    label: &str,
    count: usize,
    value: &str,
) -> Result<String, AllocError>
    requires label { IsAscii label.now }
    requires value { IsAscii value.now }
    ensures { IfOk result (λ text. string_bytes text ≡ value_columns label.now count value.now) }
{
    format!(in alloc; "{label:<10} {count:>9} {value:>30}\n")
}

// A code and three sums.
fn account_columns(
    alloc: Global,
    code: &str,
    posted: &str,
    sent: &str,
    received: &str,
) -> Result<String, AllocError>
    requires code { IsAscii code.now }
    requires posted { IsAscii posted.now }
    requires sent { IsAscii sent.now }
    requires received { IsAscii received.now }
    ensures { IfOk result (λ text. string_bytes text ≡ account_columns code.now posted.now sent.now received.now) }
{
    let mut line = String::new(alloc);
    write!(line, "{code:<8} {posted:>30} ")?;
    writeln!(line, "{sent:>30} {received:>30}")?;
    Ok(line)
}
