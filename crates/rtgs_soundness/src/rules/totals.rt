//! Sums of cents under keys.
ghost use Rattle.std.specs.Prelude.{◌≡◌, ℤ, ◌+ℤ◌, pos, FitsSigned, IfOk, map, Some, None, if◌then◌else◌};
ghost use Rattle.std.specs.BTreeMap.{get, is_at, IsFromIterResult};
ghost use Rattle.std.specs.Int.{w128};
ghost use Rattle.std.specs.Option.{option_map};
ghost use Rattle.std.specs.Ordering.{eq_by_cmp};
ghost use Rattle.std.specs.Set.{is_member};

use std::alloc::{AllocError, Global};
use std::collections::BTreeMap;

/// Nothing under each of the keys.
pub fn zeros<K: Ord + Drop>(alloc: Global, keys: Vec<K>) -> Result<BTreeMap<K, i128>, AllocError>
    ensures { IfOk result (λ totals. (q : K) → get K.cmp totals q
        ≡ (if is_member (eq_by_cmp K.cmp) keys.items q then Some (pos 0) else None)) }
{
    with_zeros(alloc, keys)
}

fn with_zeros<K: Ord + Drop>(alloc: Global, keys: Vec<K>) -> Result<BTreeMap<K, i128>, AllocError>
    ensures { IfOk result (λ totals. IsFromIterResult K.cmp (map (λ key. (key, pos 0)) keys.items) totals) }
{
    keys.into_iter().map(|key| (key, 0)).collect(alloc)
}

/// Adds to the sum under the key, if it has one.
pub fn add<K: Ord>(totals: &mut BTreeMap<K, i128>, key: &K, by: i128)
    requires { (total : ℤ) → get K.cmp totals.old key.now ≡ Some total → FitsSigned w128 (total +ℤ by) }
    ensures { (q : K) → get K.cmp totals.new q ≡ (if is_at (K.cmp key.now) q then option_map (λ total. total +ℤ by)
        (get K.cmp totals.old key.now) else get K.cmp totals.old q) }
{
    if let Some(total) = totals.get_mut(key) {
        *total += by;
    }
}
