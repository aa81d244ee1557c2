//! What a piece did to a head.

/// What a piece of the input did to a head.
#[derive(Clone, Copy, Debug, PartialEq, Eq)]
pub enum HeadStep {
    /// The whole piece was taken, and the head's region has not ended.
    More,
    /// The region ends after this many bytes of the piece.
    Region { taken: usize },
    /// As many bytes as a region may have hold no end of one.
    TooLong,
}
