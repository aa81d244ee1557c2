//! Totals of participants, in cents. A code without an entry has nothing.
ghost use Rattle.std.specs.Prelude.{◌≡◌, if◌then◌else◌, pos, OnOk};
ghost use Rattle.std.specs.Str.{bytes_eq};
ghost use Rattle.rtgs_statements.specs.Days.{TotalsAreSmall, IsAddedTo};
ghost use Rattle.rtgs_statements.specs.Sums.{IsSmall, sum_at};

use rtgs_money::Code;
use std::alloc::AllocError;
use std::collections::BTreeMap;

/// The total under the code.
pub fn total_at(totals: &BTreeMap<Code, i128>, code: &Code) -> i128
    ensures { result ≡ sum_at totals.now code.now }
{
    totals.get(code).copied().unwrap_or(0)
}

/// Adds to the total under the code.
pub fn add(totals: &mut BTreeMap<Code, i128>, code: Code, cents: i128) -> Result<(), AllocError>
    requires totals { TotalsAreSmall totals.old }
    requires cents { IsSmall cents }
    ensures { OnOk result (IsAddedTo totals.old (λ other. if bytes_eq code other then cents else pos 0) totals.new) }
{
    let total = total_at(totals, &code);
    totals.insert(code, total + cents)?;
    Ok(())
}
