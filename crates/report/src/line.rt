//! A line that is put together in place. Everything that is printed goes through one.
//! Used in this crate by all others.
ghost use Rattle.std.specs.Prelude.{◌≡◌, ◌+◌, ◌≤◌, ◌^◌, ◌++◌, [], length, decimal};
ghost use Rattle.std.specs.Fmt.{signed_decimal};

use itoa::Buffer;
use std::marker::Model;

/// A line of up to 400 bytes, held in place. The line of a solution with eight variables has at most 360. Clauses see
/// the list of its bytes.
#[derive(Drop)]
pub struct Line {
    bytes: [u8; 400],
    len: usize,
}

impl Model for Line {
    ghost use Rattle.std.specs.Prelude.{ℕ, List, ◌≤◌, take};

    ghost Value = { List ℕ };

    ghost view = { λ l. take l.len l.bytes };

    ghost invariant = { λ l. l.len ≤ 400 };
}

impl Line {
    /// An empty line.
    pub fn new() -> Line
        ensures { result ≡ [] }
    {
        Line {
            bytes: [0; 400],
            len: 0,
        }
    }

    /// A line with this text.
    pub fn from_text(text: &[u8]) -> Line
        requires { length text.now ≤ 400 }
        ensures { result ≡ text.now }
    {
        let mut line = Line::new();
        line.push(text);
        line
    }

    /// Appends a piece.
    pub fn push(&mut self, piece: &[u8])
        requires { length self.old + length piece.now ≤ 400 }
        ensures { self.new ≡ self.old ++ piece.now }
    {
        let end = self.len + piece.len();
        self.bytes[self.len..end].copy_from_slice(piece);
        self.len = end;
    }

    /// Appends a number in decimal.
    pub fn push_number(&mut self, n: u64)
        requires { length self.old ≤ 360 }
        ensures number { self.new ≡ self.old ++ decimal n }
        ensures short { length self.new ≤ length self.old + 40 }
    {
        let mut digits = Buffer::new();
        self.push(digits.format(n).as_bytes());
    }

    /// Appends a number in decimal, with a minus sign before it if it is negative.
    pub fn push_signed(&mut self, n: i64)
        requires { length self.old ≤ 360 }
        ensures number { self.new ≡ self.old ++ signed_decimal n }
        ensures short { length self.new ≤ length self.old + 40 }
    {
        let mut digits = Buffer::new();
        self.push(digits.format(n).as_bytes());
    }

    /// The bytes of the line, in order.
    pub fn as_bytes(&self) -> &[u8]
        ensures { result.now ≡ self.now }
    {
        &self.bytes[..self.len]
    }
}
