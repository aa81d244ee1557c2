//! The number and the date of a mark.
use crate::recorded::Recorded;
use rtgs_book::Mark;

impl Recorded for Mark {
    ghost number_of = { λ mark. mark.number };

    ghost date_of = { λ mark. mark.date };

    fn number(&self) -> u64 {
        self.number
    }

    fn date_number(&self) -> u32 {
        self.date.number()
    }
}
