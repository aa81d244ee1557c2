//! The words of a command.
ghost use Rattle.rtgs_cli_arguments.specs.requests.Requests.{ReadsCommand};

use crate::requests::spelling::{
    read_add, read_close, read_credit, read_cut_off, read_open, read_order_name, read_post,
};
use rtgs_book::Command;
use rtgs_money::Lexical;

/// A command, in words that have not been judged.
#[derive(Clone, Copy, Debug)]
pub enum CommandWords<'a> {
    Add {
        code: &'a str,
        name: &'a str,
        key: &'a str,
    },
    Credit {
        code: &'a str,
        cents: &'a str,
    },
    Post {
        code: &'a str,
        reference: &'a str,
        cents: &'a str,
        debit: bool,
    },
    Withdraw {
        code: &'a str,
        reference: &'a str,
    },
    Open {
        date: &'a str,
        automatic: bool,
    },
    Resolve,
    CutOff {
        date: &'a str,
    },
    Close {
        date: &'a str,
    },
}

impl CommandWords<'_> {
    /// The command, or the refusal of the first word, from the left, that is not of its form.
    pub fn read(self) -> Result<Command, Lexical>
        ensures { ReadsCommand self.entry result }
    {
        match self {
            CommandWords::Add { code, name, key } => read_add(code, name, key),
            CommandWords::Credit { code, cents } => read_credit(code, cents),
            CommandWords::Post {
                code,
                reference,
                cents,
                debit,
            } => read_post(code, reference, cents, debit),
            CommandWords::Withdraw { code, reference } => {
                let (sender, reference) = read_order_name(code, reference)?;
                Ok(Command::Withdraw { sender, reference })
            }
            CommandWords::Open { date, automatic } => read_open(date, automatic),
            CommandWords::Resolve => Ok(Command::Resolve),
            CommandWords::CutOff { date } => read_cut_off(date),
            CommandWords::Close { date } => read_close(date),
        }
    }
}
