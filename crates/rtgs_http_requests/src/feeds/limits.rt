//! How long the parts of a request may be.

/// The most bytes of a head, its empty line included. RFC 9112, section 3, leaves the limit to the server.
pub const LONGEST_HEAD: usize = 8192;

/// The most bytes of a body.
pub const LONGEST_BODY: usize = 65536;
