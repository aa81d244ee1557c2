//! Records that have a number and a date.
ghost use Rattle.std.specs.Prelude.{◌≡◌, ℕ};

mod mark;
mod order;
mod posting;

/// A record that is numbered and has a date.
pub trait Recorded {
    ghost number_of: { Self → ℕ };

    /// The date as a number, and 0 where there is none.
    ghost date_of: { Self → ℕ };

    fn number(&self) -> u64
        ensures { result ≡ number_of self.now };

    fn date_number(&self) -> u32
        ensures { result ≡ date_of self.now };
}
