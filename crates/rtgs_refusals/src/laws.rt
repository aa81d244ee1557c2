//! Laws of the table. Each function does nothing: its contract is the law.
ghost use Rattle.std.specs.Prelude.{◌≡◌};
ghost use Rattle.rtgs_refusals.specs.Table.{entry_of};
ghost use Rattle.rtgs_refusals.specs.declared.refusal_kind.RefusalKind.{RefusalKind};

/// No two kinds of refusals have one number.
pub fn numbers_are_distinct()
    ensures { (one other : RefusalKind) → (entry_of one).number ≡ (entry_of other).number → one ≡ other }
{}
