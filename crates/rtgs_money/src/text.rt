//! Short texts that are kept in place.
ghost use Rattle.std.specs.Prelude.{◌≡◌, ◌+◌, ◌≤◌, ◌<◌, ◌++◌, [], ℕ, List, length, Some};
ghost use Rattle.std.specs.Fmt.{styled_text};
ghost use Rattle.std.specs.Str.{bytes_eq, IsAscii};
ghost use Rattle.std.specs.Cmp.Lexicographic.{slice_cmp};
ghost use Rattle.std.specs.Ordering.{nat_cmp, as_partial_cmp};
ghost use Rattle.std.specs.Cmp.{partial_order_from_own_ties};
ghost use Rattle.std.specs.Cmp.Rules.{comparing};
ghost use Rattle.std.proofs.Common.{rules};

use std::cmp::Ordering;
use std::fmt;
use std::marker::Model;

/// At most `N` bytes of ASCII. Contracts see the bytes.
#[derive(Clone, Copy)]
pub struct Text<const N: usize> {
    // The bytes past the text are 0.
    bytes: [u8; N],
    len: u8,
}

impl<const N: usize> Model for Text<N> {
    ghost use Rattle.std.specs.Prelude.{ℕ, List, take, length};
    ghost use Rattle.std.specs.Str.{IsAscii};
    ghost use Rattle.rtgs_money.specs.Padding.{padded, IsPadded, padded-take};

    ghost Value = { List ℕ };

    ghost view = { λ t. take t.len t.bytes };

    ghost invariant = { λ t. IsPadded N t.bytes t.len × IsAscii (take t.len t.bytes) };

    ghost inverse = { λ xs. record { bytes = padded N xs; len = length xs } };

    ghost inverse_ok = { λ t h i. record { bytes = padded-take N t.bytes t.len h.0.0 h.0.1 i; len = h.0.0 i } };
}

impl<const N: usize> Text<N> {
    /// A text of no bytes.
    pub(crate) fn new() -> Text<N>
        ensures { result ≡ [] }
    {
        Text {
            bytes: [0; N],
            len: 0,
        }
    }

    /// The text with more at its end.
    pub(crate) fn with(mut self, more: &[u8]) -> Text<N>
        requires short { N < 256 }
        requires room { length self + length more.now ≤ N }
        requires ascii { IsAscii more.now }
        ensures { result ≡ self.entry ++ more.now }
    {
        let start = self.len as usize;
        let end = start + more.len();
        self.bytes[start..end].copy_from_slice(more);
        self.len = end as u8;
        self
    }

    /// The bytes of the text, without the room that is left.
    pub fn as_bytes(&self) -> &[u8]
        ensures value { result.now ≡ self.now }
        ensures ascii { IsAscii self.now }
        ensures short { length self.now ≤ N }
    {
        &self.bytes[..self.len as usize]
    }

    /// The text, without the room that is left.
    pub fn as_str(&self) -> &str
        ensures value { result.now ≡ self.now }
        ensures ascii { IsAscii self.now }
        ensures short { length self.now ≤ N }
    {
        str::from_utf8(self.as_bytes()).unwrap()
    }
}

impl<const N: usize> fmt::Display for Text<N> {
    ghost output = { λ text. Some text };

    ghost styled_output = { λ text style. Some (styled_text style text) };

    fn fmt<W: fmt::Write>(&self, f: &mut fmt::Formatter<W>) -> fmt::Result {
        f.pad(self.as_str())
    }
}

impl<const N: usize> fmt::Debug for Text<N> {
    fn fmt<W: fmt::Write>(&self, f: &mut fmt::Formatter<W>) -> fmt::Result {
        write!(f, "{:?}", self.as_str())
    }
}

impl<const N: usize> PartialEq for Text<N> {
    ghost eq = { bytes_eq };

    ghost laws = { Prim.search (comparing, rules) };

    fn eq(&self, other: &Text<N>) -> bool {
        self.as_bytes() == other.as_bytes()
    }
}

impl<const N: usize> Eq for Text<N> {
    ghost laws = { Prim.search (comparing, rules) };
}

impl<const N: usize> PartialOrd for Text<N> {
    ghost partial_cmp = { as_partial_cmp (slice_cmp nat_cmp) };

    ghost laws = { partial_order_from_own_ties (Prim.search (comparing, rules)) (Prim.search (comparing, rules)) };

    fn partial_cmp(&self, other: &Text<N>) -> Option<Ordering> {
        Some(self.cmp(other))
    }
}

impl<const N: usize> Ord for Text<N> {
    ghost cmp = { slice_cmp nat_cmp };

    ghost total = { Prim.search (comparing, rules) };

    ghost matches_partial_cmp = { Prim.search (comparing, rules) };

    ghost matches_eq = { Prim.search (comparing, rules) };

    fn cmp(&self, other: &Text<N>) -> Ordering {
        self.as_bytes().cmp(other.as_bytes())
    }
}
