//! Laws of the definitions. Each function does nothing: its contract is the law.
ghost use Rattle.std.specs.Prelude.{◌≡◌, ℕ};
ghost use Rattle.rtgs_money.specs.Date.{date_text, IsBusinessDate};

/// No two dates have one text.
pub fn dates_have_distinct_texts()
    ensures { (one other : ℕ) → IsBusinessDate one → IsBusinessDate other → date_text one ≡ date_text other
        → one ≡ other }
{}
