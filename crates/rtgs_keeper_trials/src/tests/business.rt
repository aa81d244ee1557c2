//! Commands, as chance would have them.
ghost use Rattle.std.specs.Prelude.{◌<◌, ◌≤◌};

use rtgs_book::{Answer, Command, NewDay, Refusal};
use rtgs_money::BusinessDate;
use rtgs_tests_desks::{Reply, command};
use std::alloc::Global;
use std::test::Fail;

/// The days that may be opened, weekends among them.
pub const DAYS: [u32; 48] = [
    20240301, 20240302, 20240304, 20240305, 20240306, 20240307, 20240308, 20240309, 20240311,
    20240312, 20240313, 20240314, 20240315, 20240317, 20240318, 20240319, 20240320, 20240321,
    20240322, 20240323, 20240325, 20240326, 20240327, 20240328, 20240329, 20240401, 20240402,
    20240403, 20240404, 20240405, 20240407, 20240408, 20240409, 20240410, 20240411, 20240412,
    20240415, 20240416, 20240417, 20240418, 20240419, 20240422, 20240423, 20240424, 20240425,
    20240426, 20240429, 20240430,
];

/// Gives commands in an order that is the same for each seed. Codes, references and amounts are few, so that commands
/// come twice, are at odds with each other, and lack cover. Orders are paid back and taken back, and limits are set for
/// the last sender, so that each kind of command at some time frees orders that wait.
#[derive(Drop)]
pub struct Business {
    alloc: Global,
    state: u64,
    // the day that was opened last, and the one that was asked for last, as places among the days
    today: u64,
    asked: u64,
    // whether the day that is in progress is automatic, and whether the one that was asked for last is to be
    automatic: bool,
    chosen: bool,
    // the last order: its sender, the number in its reference, its receiver, its cents, and the place of its due date
    // among the days, if it has one
    sender: u64,
    number: u64,
    receiver: u64,
    cents: u64,
    due: Option<u64>,
    // the senders of the last orders and the numbers in their references, and how many orders there were
    sent: [(u64, u64); KEPT],
    count: u64,
}

/// How many of the last orders may be taken back.
const KEPT: usize = 8;

/// How many codes there are: BANK0 and those after it.
pub const CODES: u64 = 12;

/// How many references each sender has for its orders: R-0 and those after it.
pub const ORDERS: u64 = 150;

/// How many references there are for postings: P-0 and those after it.
pub const POSTINGS: u64 = 900;

/// The day at this place, where they come again and again.
pub fn day_at(place: u64) -> Result<BusinessDate, Fail> {
    let place = place as usize % DAYS.len();
    Ok(BusinessDate::from_number(DAYS[place]).ok_or("a date")?)
}

impl Business {
    /// The commands of this seed.
    pub fn new(alloc: Global, seed: u64) -> Business {
        Business {
            alloc,
            state: seed,
            today: 0,
            asked: 0,
            automatic: false,
            chosen: false,
            sender: 0,
            number: 0,
            receiver: 1,
            cents: 1,
            due: None,
            sent: [(0, 0); KEPT],
            count: 0,
        }
    }

    pub fn command(&mut self) -> Result<Command, Fail> {
        match self.below(32) {
            5 | 6 => {
                self.asked = self.today.wrapping_add(self.below(3));
                self.chosen = self.below(2) == 1;
                Ok(Command::OpenDay(NewDay {
                    date: day_at(self.asked)?,
                    automatic: self.chosen,
                }))
            }
            9 | 10 => Ok(Command::Resolve),
            11 if self.below(8) == 0 => Ok(Command::CutOff(self.day()?)),
            12 | 13 | 14 => Ok(Command::CloseDay(self.day()?)),
            kind => command(self.words(kind)?.as_str()),
        }
    }

    // The words of a command of this kind, which names participants.
    fn words(&mut self, kind: u64) -> Result<String, Fail> {
        match kind {
            7 | 8 => return self.takes_back(),
            15 => {
                if self.below(4) == 0 {
                    self.due = self.due_place();
                }
                return self.order();
            }
            16 => return self.pays_back(),
            _ => {}
        }
        let code = self.below(CODES);
        let words = match kind {
            0 => format!(in self.alloc; "add BANK{code} {:032}", self.below(11)),
            1 => {
                let code = if self.below(2) == 0 {
                    self.sender
                } else {
                    code
                };
                format!(in self.alloc; "credit BANK{code} {}", self.below(400))
            }
            2 | 3 | 4 => {
                let (number, size) = (self.below(POSTINGS), self.below(1_500) + 1);
                let word = if self.below(4) == 0 { "debit" } else { "post" };
                format!(in self.alloc; "{word} BANK{code} P-{number} {size}")
            }
            _ => return self.new_order(code),
        };
        Ok(words?)
    }

    // The words that take one of the last orders back.
    fn takes_back(&mut self) -> Result<String, Fail> {
        let place = self.below(KEPT as u64) as usize % KEPT;
        let (sender, number) = self.sent[place];
        Ok(format!(in self.alloc; "withdraw BANK{sender} R-{number}")?)
    }

    // The words of an order by which the last receiver pays the same amount back.
    fn pays_back(&mut self) -> Result<String, Fail> {
        let sender = self.receiver;
        self.receiver = self.sender;
        self.sender = sender;
        self.number = self.below(ORDERS);
        self.due = None;
        self.note();
        self.order()
    }

    // The words of a new order of this sender. One in eight is of more than anybody has.
    fn new_order(&mut self, sender: u64) -> Result<String, Fail> {
        self.sender = sender;
        self.number = self.below(ORDERS);
        self.receiver = self.below(CODES);
        let cents = self.below(900) + 1;
        let more = if self.below(8) == 0 { 9_000 } else { 0 };
        self.cents = cents.saturating_add(more);
        self.due = self.due_place();
        self.note();
        self.order()
    }

    // Counts the last order among those that may be taken back.
    fn note(&mut self) {
        let place = self.count as usize % KEPT;
        let last = (self.sender, self.number);
        self.sent[place] = last;
        self.count = self.count.wrapping_add(1);
    }

    // The words of the last order.
    fn order(&self) -> Result<String, Fail> {
        let (sender, number, receiver, cents) = (
            self.sender,
            self.number,
            self.receiver,
            self.cents,
        );
        let mut words = format!(in self.alloc;
            "order BANK{sender} R-{number} BANK{receiver} {cents}"
        )?;
        if let Some(place) = self.due {
            words = format!(in self.alloc; "{words} due {}", day_at(place)?)?;
        }
        Ok(words)
    }

    // The place of an order's due date among the days. One order in four has one, mostly after the day that was opened
    // last.
    fn due_place(&mut self) -> Option<u64> {
        if self.below(4) == 0 {
            Some(self.today.wrapping_add(self.below(6)))
        } else {
            None
        }
    }

    /// Takes notice of a day that was opened or closed.
    pub fn hear(&mut self, reply: &Reply) {
        let Ok(answer) = reply else {
            return;
        };
        match answer.own {
            Answer::Opened => {
                self.today = self.asked;
                self.automatic = self.chosen;
            }
            Answer::Closed { .. } => self.automatic = false,
            _ => {}
        }
    }

    /// Whether a reply that was heard goes with the day. On an automatic day nothing is left for those who ask, and on
    /// another one nothing is resolved unasked.
    pub fn is_of_the_day(&self, reply: &Reply) -> bool {
        match reply {
            Ok(answer) => match answer.own {
                Answer::Resolved { .. } => !self.automatic,
                _ => self.automatic || answer.auto.is_none(),
            },
            Err(Refusal::Resolvable) => !self.automatic,
            Err(_) => true,
        }
    }

    // A number below this one.
    fn below(&mut self, bound: u64) -> u64
        requires { 1 ≤ bound }
        ensures { result < bound }
    {
        self.state = self
            .state
            .wrapping_mul(6364136223846793005)
            .wrapping_add(1442695040888963407);
        (self.state >> 33) % bound
    }

    // Mostly the day that was opened last.
    fn day(&mut self) -> Result<BusinessDate, Fail> {
        let step = if self.below(8) == 0 { 1 } else { 0 };
        day_at(self.today.wrapping_add(step))
    }
}
