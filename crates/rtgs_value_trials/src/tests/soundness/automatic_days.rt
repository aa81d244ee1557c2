//! Books of automatic days, and the rule that each breaks.
use super::judged::are_judged;
use std::test::Fail;

/// A day is automatic only while it is in progress.
const AUTOMATIC: &str = "
day automatic => sound
day automatic; day cut-off => sound
day automatic; closed 2024-03-04 => 15
day automatic; closed 2024-03-01 => 15
day automatic; closed - => 15
closed 2024-03-04 => sound
closed - => sound
order 1 ALFA BETA A-1 5 2024-03-04 1; mark 1 2024-03-04 1 5; day automatic; closed 2024-03-04 => 15
order 1 ALFA BETA A-1 5 2024-03-05 held due 2024-03-05; day automatic; closed 2024-03-04 => 15
";

#[test]
fn a_closed_day_is_not_automatic(rt: HostRuntime) -> Result<(), Fail> {
    are_judged(rt.alloc(), AUTOMATIC, 9)
}

/// Of the rules that are broken the first is named.
const WITH_OTHERS: &str = "
order 1 ALFA BETA A-1 5 2024-03-04 queued; day automatic; closed 2024-03-04 => 10
posting 2 ALFA P-2 1 2024-03-05; day automatic; closed 2024-03-04 => 11
posting 2 BETA P-2 -1 2024-03-04; day automatic; closed 2024-03-04 => 12
posting 2 ALFA P-2 1000000000000000 2024-03-04; day automatic; closed 2024-03-04 => 13
";

#[test]
fn other_rules_are_named_before(rt: HostRuntime) -> Result<(), Fail> {
    are_judged(rt.alloc(), WITH_OTHERS, 4)
}

/// Orders that could settle at once are no matter of a book by itself.
const RESTLESS: &str = "
order 1 ALFA BETA A-1 5 2024-03-04 queued; day automatic => sound
order 1 ALFA BETA A-1 5 2024-03-04 queued; day automatic; day cut-off => sound
order 1 ALFA BETA A-1 105 2024-03-04 queued; order 2 BETA ALFA B-1 5 2024-03-04 queued; day automatic => sound
";

#[test]
fn what_could_settle_is_not_judged(rt: HostRuntime) -> Result<(), Fail> {
    are_judged(rt.alloc(), RESTLESS, 3)
}
