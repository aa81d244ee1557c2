//! The judging of the words of a run, from left to right.
ghost use Rattle.std.specs.Prelude.{◌≡◌};
ghost use Rattle.rtgs_cli_arguments.specs.requests.Requests.{ReadsRequest};

use crate::requests::request::{JudgedRequest, Request, Words};
use crate::requests::spelling::{read_code, read_key};
use rtgs_money::Lexical;

/// The request, or the refusal of the first word, from the left, that is not of its form.
pub fn judge_request<'a>(words: &Words<'a>) -> Result<JudgedRequest<'a>, Lexical>
    ensures { ReadsRequest words.now result }
{
    match *words {
        Request::Make { file } => Ok(Request::Make { file }),
        Request::Migrate { file } => Ok(Request::Migrate { file }),
        Request::Submit { file, command } => {
            let command = command.read()?;
            Ok(Request::Submit { file, command })
        }
        Request::Import {
            file,
            sender,
            orders,
        } => {
            let sender = read_code(sender)?;
            Ok(Request::Import {
                file,
                sender,
                orders,
            })
        }
        Request::Read { file, reading } => {
            let reading = reading.read()?;
            Ok(Request::Read { file, reading })
        }
        Request::Serve {
            file,
            port,
            count,
            operator,
        } => {
            let operator = read_key(operator)?;
            Ok(Request::Serve {
                file,
                port,
                count,
                operator,
            })
        }
    }
}
