//! The values that words spell, judged from left to right.
ghost use Rattle.std.specs.Prelude.{◌≡◌};
ghost use Rattle.rtgs_book.specs.declared.command.Command.TheVariants.{CutOff, CloseDay};
ghost use Rattle.rtgs_cli_arguments.specs.requests.Words.{ReadsAdd, ReadsCode, ReadsCredit, ReadsPost, ReadsCents};
ghost use Rattle.rtgs_cli_arguments.specs.requests.Words.{ReadsDate, ReadsDay, opens_day};
ghost use Rattle.rtgs_cli_arguments.specs.requests.Words.{ReadsKey, ReadsOrderName, ReadsStatement};

use rtgs_book::{Command, NewDay};
use rtgs_money::{
    BusinessDate, Code, Credit, Key, KeyDigest, Lexical, Name, PostingAmount, Reference,
};

/// The addition that the words spell.
pub fn read_add(code: &str, name: &str, key: &str) -> Result<Command, Lexical>
    ensures { ReadsAdd code.now name.now key.now result }
{
    let code = Code::read(code.as_bytes())?;
    let name = Name::read(name.as_bytes())?;
    let key = Key::read(key.as_bytes())?.digest();
    Ok(Command::Add { code, name, key })
}

/// The setting of a credit limit that the words spell.
pub fn read_credit(code: &str, cents: &str) -> Result<Command, Lexical>
    ensures { ReadsCredit code.now cents.now result }
{
    let code = Code::read(code.as_bytes())?;
    let credit = Credit::read(cents.as_bytes())?;
    Ok(Command::SetCredit { code, credit })
}

/// The posting that the words spell.
pub fn read_post(code: &str, reference: &str, cents: &str, debit: bool) -> Result<Command, Lexical>
    ensures { ReadsPost code.now reference.now cents.now debit result }
{
    let code = Code::read(code.as_bytes())?;
    let reference = Reference::read(reference.as_bytes())?;
    let cents = read_cents(cents, debit)?;
    Ok(Command::Post {
        code,
        reference,
        cents,
    })
}

/// The amount of a posting from a word without a sign, which a debit takes.
fn read_cents(cents: &str, debit: bool) -> Result<PostingAmount, Lexical>
    ensures { ReadsCents cents.now debit result }
{
    if cents.starts_with('-') {
        return Err(Lexical::BadAmount);
    }
    if debit {
        PostingAmount::read_debit(cents.as_bytes())
    } else {
        PostingAmount::read(cents.as_bytes())
    }
}

/// The opening of a day that the word spells, with this choice.
pub fn read_open(date: &str, automatic: bool) -> Result<Command, Lexical>
    ensures { ReadsDay (opens_day automatic) date.now result }
{
    let date = read_date(date)?;
    Ok(Command::OpenDay(NewDay { date, automatic }))
}

/// The cut-off of a day that the word spells.
pub fn read_cut_off(date: &str) -> Result<Command, Lexical>
    ensures { ReadsDay CutOff date.now result }
{
    Ok(Command::CutOff(read_date(date)?))
}

/// The closing of a day that the word spells.
pub fn read_close(date: &str) -> Result<Command, Lexical>
    ensures { ReadsDay CloseDay date.now result }
{
    Ok(Command::CloseDay(read_date(date)?))
}

/// The code that the word spells.
pub fn read_code(code: &str) -> Result<Code, Lexical>
    ensures { ReadsCode code.now result }
{
    Code::read(code.as_bytes())
}

/// The date that the word spells.
pub fn read_date(date: &str) -> Result<BusinessDate, Lexical>
    ensures { ReadsDate date.now result }
{
    BusinessDate::read(date.as_bytes())
}

/// The participant and the date of a statement that the words spell.
pub fn read_statement(code: &str, date: &str) -> Result<(Code, BusinessDate), Lexical>
    ensures { ReadsStatement code.now date.now result }
{
    let code = Code::read(code.as_bytes())?;
    let date = BusinessDate::read(date.as_bytes())?;
    Ok((code, date))
}

/// The sender and the reference of an order that the words spell.
pub fn read_order_name(code: &str, reference: &str) -> Result<(Code, Reference), Lexical>
    ensures { ReadsOrderName code.now reference.now result }
{
    let code = Code::read(code.as_bytes())?;
    let reference = Reference::read(reference.as_bytes())?;
    Ok((code, reference))
}

/// The digest of the key that the word spells.
pub fn read_key(key: &str) -> Result<KeyDigest, Lexical>
    ensures { ReadsKey key.now result }
{
    Ok(Key::read(key.as_bytes())?.digest())
}
