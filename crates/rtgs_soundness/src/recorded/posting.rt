//! The number and the date of a posting.
use crate::recorded::Recorded;
use rtgs_book::Posting;

impl Recorded for Posting {
    ghost use Rattle.std.specs.Prelude.{unwrap_or};

    ghost number_of = { λ posting. posting.number };

    ghost date_of = { λ posting. unwrap_or posting.date 0 };

    fn number(&self) -> u64 {
        self.number
    }

    fn date_number(&self) -> u32 {
        match self.date {
            Some(date) => date.number(),
            None => 0,
        }
    }
}
