//! Requests as the tests write them, and the bytes that they are.
use super::{ALFA, OPERATOR};
use std::alloc::{AllocError, Global};
use std::test::Fail;

/// BETA's key, where there is a BETA.
pub const BETA: &str = "0000000000000000000000000000000b";

/// GAMA's key, where there is a GAMA.
pub const GAMA: &str = "0000000000000000000000000000000c";

/// ZETA's key, where there is a ZETA.
pub const ZETA: &str = "0000000000000000000000000000000d";

// A key that nobody has.
const NOBODY: &str = "00000000000000000000000000000000";

/// A key that is the operator's in one test alone.
pub const OTHER: &str = "0000000000000000000000000000000e";

/// A line of a caller, a method, a target and, where there is one, a body: `ALFA POST /orders {}`. Or such a line
/// without a body, and behind it the lines of a file, each of which ends.
#[derive(Clone, Copy)]
pub struct WrittenRequest<'a> {
    pub caller: &'a str,
    pub method: &'a str,
    pub target: &'a str,
    pub body: &'a str,
    // how the last line of the body ends
    end: &'static str,
}

impl<'a> WrittenRequest<'a> {
    /// The request that the text says.
    pub fn read(text: &'a str) -> Result<WrittenRequest<'a>, Fail> {
        let (line, file) = text.split_once("\n").unwrap_or((text, ""));
        let (caller, rest) = line.split_once(" ").ok_or("a request without a caller")?;
        let (method, rest) = rest.split_once(" ").ok_or("a request without a target")?;
        let (target, body) = rest.split_once(" ").unwrap_or((rest, ""));
        if !body.is_empty() && !file.is_empty() {
            return Err(Fail::from("a request with two bodies"));
        }
        let (body, end) = if file.is_empty() {
            (body, "")
        } else {
            (file, "\n")
        };
        Ok(WrittenRequest {
            caller,
            method,
            target,
            body,
            end,
        })
    }

    // The field of the caller's key.
    fn key(&self, alloc: Global) -> Result<String, Fail> {
        let key = match self.caller {
            "ALFA" => ALFA,
            "BETA" => BETA,
            "GAMA" => GAMA,
            "ZETA" => ZETA,
            "OPERATOR" => OPERATOR,
            "NOBODY" => NOBODY,
            "OTHER" => OTHER,
            "EMPTY" => "",
            "KEYLESS" => return Ok(String::new(alloc)),
            _ => return Err(Fail::from("a caller that has no key")),
        };
        Ok(format!(in alloc; "desk-key: {key}\r\n")?)
    }

    /// Its first line and its key, with this behind them.
    pub fn with_rest(&self, alloc: Global, rest: &str) -> Result<String, Fail> {
        let (method, target) = (self.method, self.target);
        let key = self.key(alloc)?;
        Ok(format!(in alloc; "{method} {target} HTTP/1.1\r\n{key}{rest}")?)
    }

    /// Its bytes, with these fields in place of the length.
    pub fn with_fields(&self, alloc: Global, fields: &str) -> Result<String, Fail> {
        let (body, end) = (self.body, self.end);
        let rest = format!(in alloc; "{fields}\r\n{body}{end}")?;
        self.with_rest(alloc, rest.as_str())
    }

    /// Its bytes, with the length of the body.
    pub fn input(&self, alloc: Global) -> Result<String, Fail> {
        let length = self.body.len().saturating_add(self.end.len());
        let field = format!(in alloc; "Content-Length: {length}\r\n")?;
        self.with_fields(alloc, field.as_str())
    }

    /// The same, but that a GET has no length.
    pub fn short_input(&self, alloc: Global) -> Result<String, Fail> {
        if self.method == "GET" {
            return self.with_fields(alloc, "");
        }
        self.input(alloc)
    }
}

/// An input that is spelled: `\r`, `\n` and `\t` are the bytes of those names, `\s` is a space, and
/// lines are joined.
pub fn spelled(alloc: Global, text: &str) -> Result<String, AllocError> {
    let text = text.replace(alloc, "\n", "")?;
    let text = text.as_str().replace(alloc, "\\r", "\r")?;
    let text = text.as_str().replace(alloc, "\\n", "\n")?;
    let text = text.as_str().replace(alloc, "\\t", "\t")?;
    text.as_str().replace(alloc, "\\s", " ")
}
