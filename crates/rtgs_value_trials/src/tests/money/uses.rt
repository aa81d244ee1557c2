//! What callers get from the clauses, proved: each value reads back from what it displays, fills a column, and is found
//! in a map.
ghost use Rattle.std.specs.Prelude.{◌≡◌, ◌++◌, ◌-◌, ◌^◌, ◌<◌, ◌↔◌, ℕ, IsTrue, IfOk, OnOk, Some, string_bytes};
ghost use Rattle.std.specs.Fmt.{padded, format_spec};
ghost use Rattle.std.specs.Ordering.{nat_cmp};
ghost use Rattle.std.specs.Cmp.Lexicographic.{slice_cmp};
ghost use Rattle.std.specs.BTreeMap.{get};
ghost use Rattle.rtgs_money.specs.Units.{units_text};

use rtgs_money::{
    Amount, BusinessDate, Code, Credit, Key, Lexical, Name, PostingAmount, Reference, Units,
};
use rtgs_tests_desks::{ensure, is};
use std::alloc::{AllocError, AllocFailed, Global};
use std::collections::BTreeMap;
use std::test::Fail;

fn amount_again(alloc: Global, amount: Amount) -> Result<Result<Amount, Lexical>, AllocError>
    ensures { IfOk result (λ again. again ≡ Ok amount) }
{
    let _range = amount.cents();
    let text = format!(in alloc; "{amount}")?;
    Ok(Amount::read(text.as_bytes()))
}

fn posting_again(
    alloc: Global,
    posting: PostingAmount,
) -> Result<Result<PostingAmount, Lexical>, AllocError>
    ensures { IfOk result (λ again. again ≡ Ok posting) }
{
    let _range = posting.cents();
    let text = format!(in alloc; "{posting}")?;
    Ok(PostingAmount::read(text.as_bytes()))
}

fn credit_again(alloc: Global, credit: Credit) -> Result<Result<Credit, Lexical>, AllocError>
    ensures { IfOk result (λ again. again ≡ Ok credit) }
{
    let _range = credit.cents();
    let text = format!(in alloc; "{credit}")?;
    Ok(Credit::read(text.as_bytes()))
}

fn code_again(alloc: Global, code: Code) -> Result<Result<Code, Lexical>, AllocError>
    ensures { IfOk result (λ again. again ≡ Ok code) }
{
    let _form = code.as_bytes();
    let text = format!(in alloc; "{code}")?;
    Ok(Code::read(text.as_bytes()))
}

fn reference_again(
    alloc: Global,
    reference: Reference,
) -> Result<Result<Reference, Lexical>, AllocError>
    ensures { IfOk result (λ again. again ≡ Ok reference) }
{
    let _form = reference.as_bytes();
    let text = format!(in alloc; "{reference}")?;
    Ok(Reference::read(text.as_bytes()))
}

fn name_again(alloc: Global, name: Name) -> Result<Result<Name, Lexical>, AllocError>
    ensures { IfOk result (λ again. again ≡ Ok name) }
{
    let _form = name.as_bytes();
    let text = format!(in alloc; "{name}")?;
    Ok(Name::read(text.as_bytes()))
}

fn key_again(alloc: Global, key: Key) -> Result<Result<Key, Lexical>, AllocError>
    ensures { IfOk result (λ again. again ≡ Ok key) }
{
    let _form = key.as_bytes();
    let text = format!(in alloc; "{key}")?;
    Ok(Key::read(text.as_bytes()))
}

fn date_again(
    alloc: Global,
    date: BusinessDate,
) -> Result<Result<BusinessDate, Lexical>, AllocError>
    ensures { IfOk result (λ again. again ≡ Ok date) }
{
    let _range = date.number();
    let text = format!(in alloc; "{date}")?;
    Ok(BusinessDate::read(text.as_bytes()))
}

// A code on the left of eight columns, and a sum on the right of thirty. A format_spec has the fill (32, a space), the
// side (1 left, 3 right), the flags, the width, and no precision.
fn columns(alloc: Global, code: Code, sum: Units) -> Result<String, AllocError>
    ensures { IfOk result (λ line. string_bytes line
        ≡ padded (format_spec 32 1 0 8 (2 ^ 64 - 1)) code
        ++ padded (format_spec 32 3 0 30 (2 ^ 64 - 1)) (units_text sum)) }
{
    format!(in alloc; "{code:<8}{sum:>30}")
}

fn is_same(a: Code, b: Code) -> bool
    ensures { IsTrue result ↔ (a ≡ b) }
{
    a == b
}

fn is_earlier(a: BusinessDate, b: BusinessDate) -> bool
    ensures { IsTrue result ↔ (a < b) }
{
    a < b
}

fn put(
    map: &mut BTreeMap<Code, Amount>,
    code: Code,
    amount: Amount,
) -> Result<(), AllocFailed<(Code, Amount)>>
    ensures { OnOk result (get (slice_cmp nat_cmp) map.new code ≡ Some amount) }
{
    map.insert(code, amount)?;
    Ok(())
}

#[test]
fn an_amount_reads_back(rt: HostRuntime) -> Result<(), Fail> {
    let amount = Amount::new(12_500);
    ensure(amount_again(rt.alloc(), amount)? == Ok(amount))
}

#[test]
fn a_postings_amount_reads_back(rt: HostRuntime) -> Result<(), Fail> {
    let posting = PostingAmount::read(b"-1")?;
    ensure(posting_again(rt.alloc(), posting)? == Ok(posting))
}

#[test]
fn a_credit_reads_back(rt: HostRuntime) -> Result<(), Fail> {
    ensure(credit_again(rt.alloc(), Credit::NONE)? == Ok(Credit::NONE))
}

#[test]
fn a_code_reads_back(rt: HostRuntime) -> Result<(), Fail> {
    let code = Code::read(b"ALFA")?;
    ensure(code_again(rt.alloc(), code)? == Ok(code))
}

#[test]
fn a_reference_reads_back(rt: HostRuntime) -> Result<(), Fail> {
    let reference = Reference::read(b"A-1")?;
    ensure(reference_again(rt.alloc(), reference)? == Ok(reference))
}

#[test]
fn a_name_reads_back(rt: HostRuntime) -> Result<(), Fail> {
    let name = Name::read(b"Alfa Bank")?;
    ensure(name_again(rt.alloc(), name)? == Ok(name))
}

#[test]
fn a_key_reads_back(rt: HostRuntime) -> Result<(), Fail> {
    let key = Key::read(b"0000000000000000000000000000000a")?;
    ensure(key_again(rt.alloc(), key)? == Ok(key))
}

#[test]
fn a_date_reads_back(rt: HostRuntime) -> Result<(), Fail> {
    let date = BusinessDate::read(b"2024-03-04")?;
    ensure(date_again(rt.alloc(), date)? == Ok(date))
}

#[test]
fn a_code_and_a_sum_fill_their_columns(rt: HostRuntime) -> Result<(), Fail> {
    let line = columns(rt.alloc(), Code::read(b"ALFA")?, Units::new(-100))?;
    is(line.as_str(), "ALFA                             -1.00")
}

#[test]
fn an_amount_and_a_date_fill_their_columns(rt: HostRuntime) -> Result<(), Fail> {
    let amount = Amount::new(7);
    let date = BusinessDate::read(b"2024-03-04")?;
    let line = format!(in rt.alloc(); "{amount:>3}|{date:<12}|")?;
    is(line.as_str(), "  7|2024-03-04  |")
}

#[test]
fn codes_are_compared(rt: HostRuntime) -> Result<(), Fail> {
    let code = Code::read(b"ALFA")?;
    let other = Code::read(b"ALFB")?;
    ensure(is_same(code, code) && !is_same(code, other))
}

#[test]
fn dates_are_compared(rt: HostRuntime) -> Result<(), Fail> {
    let monday = BusinessDate::read(b"2024-03-04")?;
    let before = BusinessDate::read(b"2024-02-29")?;
    ensure(is_earlier(before, monday) && !is_earlier(monday, monday))
}

#[test]
fn an_amount_is_found_by_its_code(rt: HostRuntime) -> Result<(), Fail> {
    let code = Code::read(b"ALFA")?;
    let mut map = BTreeMap::new(rt.alloc());
    put(&mut map, code, Amount::new(1))?;
    ensure(map.get(&code).copied() == Some(Amount::new(1)))
}
