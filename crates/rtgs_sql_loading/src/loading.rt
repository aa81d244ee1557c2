//! The book that the tables hold.
ghost use Rattle.std.specs.Prelude.{◌≡◌, ◌≢◌, ◌↔◌, false, map, None, Err, IfOk, IfErr, IfSome, OnOk, IsTrue};
ghost use Rattle.rtgs_book.specs.declared.book.Book.{Book};
ghost use Rattle.rtgs_book.specs.declared.rule.Rule.{Rule};
ghost use Rattle.rtgs_book.specs.declared.account.Account.{Account as AccountSpec};
ghost use Rattle.rtgs_sql_queries.specs.Answering.{KeepsTables};
ghost use Rattle.rtgs_sql_loading.specs.Accounts.{AreFormed, ExplainsBefore, ExplainsRead};
ghost use Rattle.rtgs_sql_columns.specs.Blank.{IsBlank};
ghost use Rattle.rtgs_sql_loading.specs.Displaying.{IsIllegible};
ghost use Rattle.rtgs_sql_loading.specs.Loading.{TellsRecords, Stops, LoadsFrom};
ghost use Rattle.rtgs_book.specs.Judgement.{KeepsBefore, BreaksFirst};
ghost use Rattle.rtgs_book.specs.Ranges.{Fits};
ghost use Rattle.rtgs_book.specs.Soundness.{IsSound};
ghost use Rattle.rtgs_rows.specs.Keeping.{AreBalances};
ghost use Rattle.rtgs_rows.specs.Tables.{IsVersion};
ghost use Rattle.sqlite.specs.State.{HasCleanDisk, Survives};
ghost use Rattle.sqlite.specs.Held.{state};

use crate::balances::balances_agree;
use crate::from_tables::FromTables;
use crate::orders::joined;
use rtgs_book::{Account, Book, Day, Fault, Mark, Order, Participant, Posting, Rows, Rule};
use rtgs_rows::laws::shown_records_are_held;
use rtgs_rows::{DeskRow, Forward, ResolutionRow};
use rtgs_soundness::check;
use sqlite::{Alter, Connection};
use std::alloc::{AllocError, Global};

/// What the tables of all versions hold, in the order in which they are read.
type AllTables = (DeskRow, (ResolutionRow, AllLists));

/// Those tables that have a row for each record of a list.
type AllLists = (
    Vec<Account>,
    (Vec<Posting>, (Vec<Order>, (Vec<Mark>, (Vec<Forward>, ())))),
);

/// A book as it stands in the tables, with the stored balances.
#[derive(Drop)]
struct Stored {
    accounts: Vec<Account>,
    book: Book,
    ghost participants: { book.participants ≡ map (λ (a : AccountSpec). a.participant) accounts.items },
}

/// Reads the tables that this version has.
fn read_tables<S: Alter>(
    alloc: Global,
    conn: &mut Connection<S>,
    version: u64,
) -> Result<Stored, Fault>
    ensures read { IsVersion version → HasCleanDisk (state S.Store conn.new) → IfOk result (λ stored.
        TellsRecords version (state S.Store conn.old) stored.accounts.items stored.book) }
    ensures stops { Stops version (state S.Store conn.old) (state S.Store conn.new) result
        (λ trees. ¬ AreFormed version trees) (IsIllegible version) }
    ensures kinds { (rule : Rule) → result ≢ Err (Fault.Inconsistent rule) }
    ensures blank { IsVersion version → HasCleanDisk (state S.Store conn.new) → IsBlank (state S.Store conn.old)
        → IfOk result (λ _. ⊥) }
    ensures mode { conn.old.in_transaction ≡ false → conn.new.in_transaction ≡ false }
    ensures honest { HasCleanDisk (state S.Store conn.new) → HasCleanDisk (state S.Store conn.old) }
{
    let all = AllTables::read(alloc, conn, version)?;
    let (desk, (resolution, lists)) = all;
    let (accounts, (postings, (orders, (marks, (forwards, ()))))) = lists;
    let orders = joined(orders, forwards.as_slice())?;
    let participants = participants_of(alloc, accounts.as_slice())?;
    let book = Book {
        participants: Rows::from_vec(participants),
        postings: Rows::from_vec(postings),
        orders: Rows::from_vec(orders),
        marks: Rows::from_vec(marks),
        day: Day {
            date: desk.date,
            phase: desk.phase,
            automatic: resolution.automatic,
        },
    };
    Ok(Stored { accounts, book })
}

fn participants_of(alloc: Global, accounts: &[Account]) -> Result<Vec<Participant>, AllocError>
    ensures { IfOk result (λ v. v.items ≡ map (λ (a : AccountSpec). a.participant) accounts.now) }
{
    accounts
        .iter()
        .map(|account| account.participant)
        .collect(alloc)
}

/// The first rule after that on stored balances which the book breaks, where it breaks none before.
fn later_rule(book: &Book) -> Result<Option<Rule>, Fault>
    ensures kept { OnOk result (KeepsBefore book.now Rule.StoredBalances) }
    ensures sound { IfOk result (λ later. later ≡ None → IsSound book.now × Fits book.now) }
    ensures broken { IfOk result (λ later. IfSome later (λ rule. BreaksFirst book.now rule × (rule ≢ Rule.Calm))) }
    ensures fault { IfErr result (ExplainsBefore book.now Rule.StoredBalances) }
{
    match check(book) {
        Ok(()) => Ok(None),
        Err(Fault::Inconsistent { rule }) if rule.number() > Rule::StoredBalances.number() => {
            Ok(Some(rule))
        }
        Err(fault) => Err(fault),
    }
}

/// The book of the tables, once it is seen to be sound, and the stored balances to be its balances. Else the fault
/// names the first rule that is broken, or memory was refused.
fn judged(stored: Stored) -> Result<Book, Fault>
    ensures given { IfOk result (λ book. book ≡ stored.book) }
    ensures sound { IfOk result IsSound }
    ensures fits { IfOk result Fits }
    ensures balances { OnOk result (AreBalances stored.book stored.accounts.items) }
    ensures fault { result ≢ Err Fault.StoreFault }
    ensures explained { IfErr result (ExplainsRead stored.accounts.items stored.book) }
{
    let Stored { accounts, book } = stored;
    let later = later_rule(&book)?;
    if !balances_agree(accounts.as_slice(), &book)? {
        return Err(Fault::Inconsistent {
            rule: Rule::StoredBalances,
        });
    }
    match later {
        Some(rule) => Err(Fault::Inconsistent { rule }),
        None => Ok(book),
    }
}

/// Whether the version of the tables is known.
fn is_version(version: u64) -> bool
    ensures { IsTrue result ↔ IsVersion version }
{
    version == 1 || version == 2 || version == 3
}

/// Loads the book of tables of this version, and judges it. Records that break a rule are answered by the first one
/// that they break, and what is no desk's tables of the version by `NotADeskFile`, as is a version that is not known. A
/// book is given only where the tables hold it.
pub fn load_book<S: Alter>(
    alloc: Global,
    conn: &mut Connection<S>,
    version: u64,
) -> Result<Book, Fault>
    ensures tells { HasCleanDisk (state S.Store conn.new) → LoadsFrom version (state S.Store conn.old) result }
    ensures blank { HasCleanDisk (state S.Store conn.new) → IsBlank (state S.Store conn.old)
        → IfOk result (λ _. ⊥) × ((rule : Rule) → result ≢ Err (Fault.Inconsistent rule)) }
    ensures same { HasCleanDisk (state S.Store conn.new) → result ≢ Err Fault.StoreFault
        → KeepsTables (state S.Store conn.old) (state S.Store conn.new) }
    ensures survives { Survives (state S.Store conn.old) (state S.Store conn.new) (λ _. ⊥) }
    ensures sound { IfOk result IsSound }
    ensures fits { IfOk result Fits }
    ensures mode { conn.old.in_transaction ≡ false → conn.new.in_transaction ≡ false }
    ensures honest { HasCleanDisk (state S.Store conn.new) → HasCleanDisk (state S.Store conn.old) }
{
    if !is_version(version) {
        return Err(Fault::NotADeskFile);
    }
    // The engine keeps the rows as the schema says, so what the queries show of a sound book is what the tables hold.
    conn.schema();
    shown_records_are_held();
    let stored = read_tables(alloc, conn, version)?;
    judged(stored)
}
