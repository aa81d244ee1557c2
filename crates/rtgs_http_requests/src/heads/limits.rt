//! How much a head may hold.

/// The most fields of a head. RFC 9110, section 5.4, leaves the limit to the server.
pub const MOST_FIELDS: usize = 32;

/// The most digits of a declared length.
pub const MOST_DIGITS: usize = 9;
