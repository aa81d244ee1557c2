//! What participants ask for.
ghost use Rattle.rtgs_http_requests.specs.Meaning.{AsksOrder, AsksWithdrawal, AsksBatch, AsksOrderName};
ghost use Rattle.rtgs_http_requests.specs.Meaning.{AsksStatement, MeansBank};

use crate::asked::Asked;
use crate::body::read_json;
use crate::contents::is_nothing;
use crate::heads::BankRoute;
use crate::http_fault::HttpFault;
use crate::order_body::OrderBody;
use crate::spelling::{spell_date, spell_reference};
use rtgs_book::{Command, Reading};
use rtgs_money::Code;
use rtgs_order_files::read_orders;
use std::alloc::Global;

/// What a participant asks for under a route.
pub fn read_bank(
    alloc: Global,
    route: BankRoute,
    caller: Code,
    parameter: &str,
    body: &[u8],
) -> Result<Asked, HttpFault>
    ensures { MeansBank route caller parameter.now body.now result }
{
    match route {
        BankRoute::SendOrder => read_order(alloc, caller, body),
        BankRoute::WithdrawOrder => read_withdrawal(alloc, caller, parameter, body),
        BankRoute::SendBatch => read_batch(alloc, caller, body),
        BankRoute::ReadOrder => read_order_name(caller, parameter),
        BankRoute::ReadAccount => Ok(Asked::Read(Reading::Account { code: caller })),
        BankRoute::ReadQueue => Ok(Asked::Read(Reading::Queue { code: caller })),
        BankRoute::ReadHeld => Ok(Asked::Read(Reading::Held { code: caller })),
        BankRoute::ReadWaiting => Ok(Asked::Read(Reading::Waiting { code: caller })),
        BankRoute::ReadStatement => read_statement(caller, parameter),
    }
}

// The order that a body asks for.
fn read_order(alloc: Global, caller: Code, body: &[u8]) -> Result<Asked, HttpFault>
    ensures { AsksOrder caller body.now result }
{
    let value = read_json(alloc, body)?;
    let Some(given) = OrderBody::read(&value) else {
        return Err(HttpFault::WrongFields);
    };
    let order = given.spell()?;
    Ok(Asked::Submit(Command::Order {
        sender: caller,
        order,
    }))
}

// The withdrawal that a path and a body ask for.
fn read_withdrawal(
    alloc: Global,
    caller: Code,
    parameter: &str,
    body: &[u8],
) -> Result<Asked, HttpFault>
    ensures { AsksWithdrawal caller parameter.now body.now result }
{
    let reference = spell_reference(parameter)?;
    let value = read_json(alloc, body)?;
    if !is_nothing(&value) {
        return Err(HttpFault::WrongFields);
    }
    Ok(Asked::Submit(Command::Withdraw {
        sender: caller,
        reference,
    }))
}

// The batch that a body asks for.
fn read_batch(alloc: Global, caller: Code, body: &[u8]) -> Result<Asked, HttpFault>
    ensures { AsksBatch caller body.now result }
{
    let rows = read_orders(alloc, body)?;
    Ok(Asked::Batch {
        sender: caller,
        rows,
    })
}

// The reading of an order that a path asks for.
fn read_order_name(caller: Code, parameter: &str) -> Result<Asked, HttpFault>
    ensures { AsksOrderName caller parameter.now result }
{
    let reference = spell_reference(parameter)?;
    Ok(Asked::Read(Reading::Order {
        sender: caller,
        reference,
    }))
}

// The statement that a path asks for.
fn read_statement(caller: Code, parameter: &str) -> Result<Asked, HttpFault>
    ensures { AsksStatement caller parameter.now result }
{
    let date = spell_date(parameter)?;
    Ok(Asked::Read(Reading::Statement { code: caller, date }))
}
