//! The scenarios.

/// All scenarios.
pub const GRIDLOCKS: [&str; 8] = [
    RING, LARGE_RING, DEADLOCK, CHAIN, PARTIAL, CASCADE, NO_BYPASS, CREDIT,
];

/// A ring is settled whole, and once.
const RING: &str = "
order ALFA A-1 BETA 100
order BETA B-1 GAMA 100
order GAMA G-1 ALFA 100
resolve A-1 B-1 G-1
resolve nothing
has ALFA 0 queued nothing
has BETA 0 queued nothing
has GAMA 0 queued nothing
";

/// So is one whose orders are larger than what any bank has.
const LARGE_RING: &str = "
post ALFA 100
order ALFA A-1 BETA 200
order BETA B-1 GAMA 200
order GAMA G-1 ALFA 200
resolve A-1 B-1 G-1
resolve nothing
has ALFA 100 queued nothing
has BETA 0 queued nothing
has GAMA 0 queued nothing
";

/// A deadlock stays.
const DEADLOCK: &str = "
order ALFA A-1 BETA 100
order BETA B-1 GAMA 90
resolve nothing
has ALFA 0 queued A-1
has BETA 0 queued B-1
has GAMA 0 queued nothing
";

/// One order that is taken back leaves the next one without cover.
const CHAIN: &str = "
order BETA B-1 ALFA 50
order GAMA G-1 BETA 50
resolve nothing
has ALFA 0 queued nothing
has BETA 0 queued B-1
has GAMA 0 queued G-1
";

/// A part of a queue settles: the newest order without cover waits on.
const PARTIAL: &str = "
order ALFA A-1 BETA 100
order ALFA A-2 GAMA 50
has ALFA 0 queued A-1 A-2
order BETA B-1 ALFA 100
resolve A-1 B-1
has ALFA 0 queued A-2
has BETA 0 queued nothing
has GAMA 0 queued nothing
";

/// Orders that are taken back take others back, until all that are left have cover: ALFA has 10, and two of five orders
/// settle.
const CASCADE: &str = "
post ALFA 10
order ALFA A-1 BETA 60
order ALFA A-2 GAMA 10
order BETA B-1 ALFA 50
order BETA B-2 GAMA 20
order GAMA G-1 ALFA 5
has ALFA 10 queued A-1 A-2
has BETA 0 queued B-1 B-2
has GAMA 0 queued G-1
resolve A-1 B-1
resolve nothing
has ALFA 0 queued A-2
has BETA 10 queued B-2
has GAMA 0 queued G-1
";

/// No order passes its sender's queue: the second one would have cover, and waits behind the first.
const NO_BYPASS: &str = "
post ALFA 100
order ALFA A-1 BETA 150
order ALFA A-2 BETA 20
resolve nothing
order BETA B-1 ALFA 1
has ALFA 100 queued A-1 A-2
has BETA 0 queued B-1
has GAMA 0 queued nothing
";

/// A credit limit covers one order of three.
const CREDIT: &str = "
order ALFA A-1 BETA 20
order ALFA A-2 BETA 20
order ALFA A-3 BETA 20
credit ALFA 30
resolve A-1
has ALFA -20 queued A-2 A-3
has BETA 20 queued nothing
has GAMA 0 queued nothing
";
