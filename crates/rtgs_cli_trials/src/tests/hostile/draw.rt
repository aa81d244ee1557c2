//! Numbers as chance would have them.

/// The length of a page of a file.
pub const PAGE: usize = 4096;

/// Gives numbers in an order that is the same for each seed.
#[derive(Drop)]
pub struct Draw {
    state: u64,
}

impl Draw {
    /// The numbers of this seed.
    pub fn new(seed: u64) -> Draw {
        Draw { state: seed }
    }

    /// A number below this one, and 0 below 0.
    pub fn below(&mut self, bound: usize) -> usize {
        self.state = self
            .state
            .wrapping_mul(6364136223846793005)
            .wrapping_add(1442695040888963407);
        (self.state >> 33) as usize % bound.max(1)
    }

    /// Where some page begins of a file of this length.
    pub fn page(&mut self, length: usize) -> usize {
        self.below(length / PAGE).saturating_mul(PAGE)
    }

    /// A place in a text of this length, or in a page of a file: in its first bytes, which tell of the others, more
    /// often than not.
    pub fn place(&mut self, length: usize, is_file: bool) -> usize {
        if !is_file {
            return self.below(length);
        }
        let within = if self.below(4) == 0 { PAGE } else { 128 };
        let page = self.page(length);
        page.saturating_add(self.below(within))
    }
}
