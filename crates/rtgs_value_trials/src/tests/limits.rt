//! How large a book may be, in numbers: definitions, code and clauses cite these limits by name.
use rtgs_book::{LARGEST_NUMBER, LARGEST_TOTAL, LONGEST_QUEUE, MOST_PARTICIPANTS, MOST_QUEUED};

#[test]
fn a_book_has_these_limits(rt: HostRuntime) {
    assert!(rt; MOST_PARTICIPANTS == 100 && LONGEST_QUEUE == 500 && MOST_QUEUED == 50_000);
    assert!(rt; LARGEST_NUMBER == 999_999_999 && LARGEST_TOTAL == 1_000_000_000_000_000);
}
