//! The version of the tables, which the one row of the table `desk` says.
ghost use Rattle.std.specs.Prelude.{◌≡◌, ◌≢◌, ℕ, false, Err, IfOk, OnOk};
ghost use Rattle.rtgs_book.specs.declared.rule.Rule.{Rule};
ghost use Rattle.rtgs_rows.specs.declared.desk_row.DeskRow.{DeskRow as DeskRowSpec};
ghost use Rattle.rtgs_rows.specs.Querying.{as_shown};
ghost use Rattle.rtgs_rows.specs.Tables.{desk_table};
ghost use Rattle.rtgs_sql_columns.specs.Blank.{IsBlank};
ghost use Rattle.rtgs_sql_loading.specs.Accounts.{IsOneDesk};
ghost use Rattle.rtgs_sql_loading.specs.Displaying.{SaysNoVersion};
ghost use Rattle.rtgs_sql_loading.specs.Loading.{ReadsDesk, ReadsOn, Stops};
ghost use Rattle.sqlite.specs.State.{HasCleanDisk};
ghost use Rattle.sqlite.specs.Held.{state};

use crate::one_row::read_one;
use rtgs_book::Fault;
use rtgs_rows::DeskRow;
use sqlite::{Alter, Connection};
use std::alloc::Global;

/// The version that the tables say they are of, which need not be one that is known. `NotADeskFile` where they say
/// none.
pub fn version_of<S: Alter>(alloc: Global, conn: &mut Connection<S>) -> Result<u64, Fault>
    ensures read { HasCleanDisk (state S.Store conn.new) → IfOk result (λ version. (desk : DeskRowSpec)
        × (desk.version ≡ version) × ReadsDesk (state S.Store conn.old) desk) }
    ensures stops { (version : ℕ) → Stops version (state S.Store conn.old) (state S.Store conn.new) result
        (λ trees. ¬ IsOneDesk (as_shown desk_table trees)) SaysNoVersion }
    ensures on { OnOk result (ReadsOn (state S.Store conn.old) (state S.Store conn.new)) }
    ensures kinds { (rule : Rule) → result ≢ Err (Fault.Inconsistent rule) }
    ensures blank { HasCleanDisk (state S.Store conn.new) → IsBlank (state S.Store conn.old) → IfOk result (λ _. ⊥) }
    ensures mode { conn.old.in_transaction ≡ false → conn.new.in_transaction ≡ false }
    ensures honest { HasCleanDisk (state S.Store conn.new) → HasCleanDisk (state S.Store conn.old) }
{
    let desk = read_one::<DeskRow, S>(alloc, conn)?;
    Ok(desk.version)
}
