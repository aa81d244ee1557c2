//! Where a reply's bytes are kept.

/// The bytes of a reply: made for it, or fixed, which takes no memory.
#[derive(Debug, Drop)]
pub(in crate::replies) enum ReplyBytes {
    Made(Vec<u8>),
    Fixed(&'static str),
}
