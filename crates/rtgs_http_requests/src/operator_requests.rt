//! What the operator asks for.
ghost use Rattle.rtgs_http_requests.specs.Meaning.{AsksPosting, IsPostingOf, AsksCredit, SpellsCredit};
ghost use Rattle.rtgs_http_requests.specs.Meaning.{AsksDay, AsksOpening, SpellsOpening, AsksResolution};
ghost use Rattle.rtgs_http_requests.specs.Meaning.{MeansOperator};
ghost use Rattle.rtgs_http_requests.specs.heads.Parameters.{taken};

use crate::asked::Asked;
use crate::bank_requests::read_bank;
use crate::body::read_json;
use crate::contents::{credit_of, date_of, is_nothing, opening_of, posting_of};
use crate::heads::{OperatorRoute, Parameters};
use crate::http_fault::HttpFault;
use crate::spelling::{posting_amount, spell_code, spell_date};
use rtgs_book::{Command, NewDay, Reading};
use rtgs_money::{BusinessDate, Code, Credit, Lexical, Reference};
use std::alloc::Global;

/// What the operator asks for under a route.
pub fn read_operator(
    alloc: Global,
    route: OperatorRoute,
    parameters: Parameters,
    body: &[u8],
) -> Result<Asked, HttpFault>
    ensures { MeansOperator route (taken parameters.entry) body.now result }
{
    match route {
        OperatorRoute::Post => read_posting(alloc, body),
        OperatorRoute::SetCredit => read_credit(alloc, body),
        OperatorRoute::OpenDay => read_opening(alloc, body),
        OperatorRoute::Resolve => read_resolution(alloc, body),
        OperatorRoute::CutOff => Ok(Asked::Submit(Command::CutOff(read_day(alloc, body)?))),
        OperatorRoute::CloseDay => Ok(Asked::Submit(Command::CloseDay(read_day(alloc, body)?))),
        OperatorRoute::ReadAccounts => Ok(Asked::Read(Reading::Accounts)),
        OperatorRoute::ReadStatus => Ok(Asked::Read(Reading::Status)),
        OperatorRoute::ReadQueues => Ok(Asked::Read(Reading::Queues)),
        OperatorRoute::ReadReport => {
            let date = spell_date(parameters.first)?;
            Ok(Asked::Read(Reading::Report { date }))
        }
        OperatorRoute::ReadOrders => {
            let date = spell_date(parameters.first)?;
            Ok(Asked::Read(Reading::Orders { date }))
        }
        OperatorRoute::ReadMarks => {
            let date = spell_date(parameters.first)?;
            Ok(Asked::Read(Reading::Marks { date }))
        }
        OperatorRoute::ForBank(route) => {
            let code = spell_code(parameters.first)?;
            read_bank(alloc, route, code, parameters.second, body)
        }
    }
}

// The posting that a body asks for.
fn read_posting(alloc: Global, body: &[u8]) -> Result<Asked, HttpFault>
    ensures { AsksPosting body.now result }
{
    let value = read_json(alloc, body)?;
    let Some((code, reference, cents)) = posting_of(&value) else {
        return Err(HttpFault::WrongFields);
    };
    spell_posting(code, reference, cents)
}

// The posting that these values are, each judged by its form.
fn spell_posting(code: &str, reference: &str, cents: i128) -> Result<Asked, HttpFault>
    ensures { IsPostingOf (code.now, reference.now, cents) result }
{
    let code = Code::read(code.as_bytes())?;
    let reference = Reference::read(reference.as_bytes())?;
    let cents = posting_amount(cents).ok_or(Lexical::BadAmount)?;
    Ok(Asked::Submit(Command::Post {
        code,
        reference,
        cents,
    }))
}

// The setting of a credit limit that a body asks for.
fn read_credit(alloc: Global, body: &[u8]) -> Result<Asked, HttpFault>
    ensures { AsksCredit body.now result }
{
    let value = read_json(alloc, body)?;
    let Some((code, credit)) = credit_of(&value) else {
        return Err(HttpFault::WrongFields);
    };
    spell_credit(code, credit)
}

// The setting of a credit limit that these values are, each judged by its form.
fn spell_credit(code: &str, credit: u64) -> Result<Asked, HttpFault>
    ensures { SpellsCredit (code.now, credit) result }
{
    let code = Code::read(code.as_bytes())?;
    let credit = Credit::from_cents(credit).ok_or(Lexical::BadAmount)?;
    Ok(Asked::Submit(Command::SetCredit { code, credit }))
}

// The opening of a day that a body asks for.
fn read_opening(alloc: Global, body: &[u8]) -> Result<Asked, HttpFault>
    ensures { AsksOpening body.now result }
{
    let value = read_json(alloc, body)?;
    let Some((date, automatic)) = opening_of(&value) else {
        return Err(HttpFault::WrongFields);
    };
    spell_opening(date, automatic)
}

// The opening of a day that these values are: the date is judged by its form.
fn spell_opening(date: &str, automatic: bool) -> Result<Asked, HttpFault>
    ensures { SpellsOpening (date.now, automatic) result }
{
    let date = spell_date(date)?;
    Ok(Asked::Submit(Command::OpenDay(NewDay { date, automatic })))
}

// The date that a body names.
fn read_day(alloc: Global, body: &[u8]) -> Result<BusinessDate, HttpFault>
    ensures { AsksDay body.now result }
{
    let value = read_json(alloc, body)?;
    let Some(date) = date_of(&value) else {
        return Err(HttpFault::WrongFields);
    };
    spell_date(date)
}

// The resolution that a body asks for.
fn read_resolution(alloc: Global, body: &[u8]) -> Result<Asked, HttpFault>
    ensures { AsksResolution body.now result }
{
    let value = read_json(alloc, body)?;
    if !is_nothing(&value) {
        return Err(HttpFault::WrongFields);
    }
    Ok(Asked::Submit(Command::Resolve))
}
