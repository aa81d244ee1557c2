//! Laws of the definitions. Each function does nothing: its contract is the law.
ghost use Rattle.rtgs_sql_loading.specs.Laws.{WhatFitsIsJoined};

/// Where numbers rise, orders and due dates are joined exactly if each due date is of an order, and each held order has
/// one.
pub fn what_fits_is_joined()
    ensures { WhatFitsIsJoined }
{}
