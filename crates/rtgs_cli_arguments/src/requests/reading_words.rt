//! The words of a reading.
ghost use Rattle.rtgs_cli_arguments.specs.requests.Requests.{ReadsReading};

use crate::requests::spelling::{read_code, read_date, read_order_name, read_statement};
use rtgs_book::Reading;
use rtgs_money::Lexical;

/// A reading, in words that have not been judged.
#[derive(Clone, Copy, Debug)]
pub enum ReadingWords<'a> {
    Order { code: &'a str, reference: &'a str },
    Account { code: &'a str },
    Accounts,
    Queue { code: &'a str },
    Held { code: &'a str },
    Waiting { code: &'a str },
    Queues,
    Status,
    Statement { code: &'a str, date: &'a str },
    Report { date: &'a str },
    Orders { date: &'a str },
    Marks { date: &'a str },
}

impl ReadingWords<'_> {
    /// The reading, or the refusal of the first word, from the left, that is not of its form.
    pub fn read(self) -> Result<Reading, Lexical>
        ensures { ReadsReading self.entry result }
    {
        match self {
            ReadingWords::Order { code, reference } => {
                let (sender, reference) = read_order_name(code, reference)?;
                Ok(Reading::Order { sender, reference })
            }
            ReadingWords::Account { code } => {
                let code = read_code(code)?;
                Ok(Reading::Account { code })
            }
            ReadingWords::Accounts => Ok(Reading::Accounts),
            ReadingWords::Queue { code } => {
                let code = read_code(code)?;
                Ok(Reading::Queue { code })
            }
            ReadingWords::Held { code } => {
                let code = read_code(code)?;
                Ok(Reading::Held { code })
            }
            ReadingWords::Waiting { code } => {
                let code = read_code(code)?;
                Ok(Reading::Waiting { code })
            }
            ReadingWords::Queues => Ok(Reading::Queues),
            ReadingWords::Status => Ok(Reading::Status),
            ReadingWords::Statement { code, date } => {
                let (code, date) = read_statement(code, date)?;
                Ok(Reading::Statement { code, date })
            }
            ReadingWords::Report { date } => {
                let date = read_date(date)?;
                Ok(Reading::Report { date })
            }
            ReadingWords::Orders { date } => {
                let date = read_date(date)?;
                Ok(Reading::Orders { date })
            }
            ReadingWords::Marks { date } => {
                let date = read_date(date)?;
                Ok(Reading::Marks { date })
            }
        }
    }
}
