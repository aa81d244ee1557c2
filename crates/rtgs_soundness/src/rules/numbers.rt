//! Whether records are numbered 1, 2, 3 and so on.
ghost use Rattle.std.specs.Prelude.{◌↔◌, map, IsTrue};
ghost use Rattle.rtgs_book.specs.Soundness.{AreNumbered};

use crate::recorded::Recorded;
use rtgs_book::LARGEST_NUMBER;

/// Whether the records are numbered 1, 2, 3 and so on, at most `LARGEST_NUMBER`.
pub fn are_numbered<T: Recorded>(rows: &[T]) -> bool
    ensures { IsTrue result ↔ AreNumbered (map T.number_of rows.now) }
{
    for (index, row) in rows.iter().enumerate() {
        if row.number() != index as u64 + 1 {
            return false;
        }
    }
    rows.len() <= LARGEST_NUMBER
}
