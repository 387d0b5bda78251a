// Lines, made in a buffer of their own.
ghost use Rattle.std.specs.Prelude.{◌≡◌, ◌+◌, ◌≤◌, [], ◌++◌, length, decimal};
ghost use Rattle.lepton_run.specs.Lines.{line_room};

use itoa::Buffer;
use std::marker::Model;

/// More than any line has, or the lines of a summary.
const ROOM: usize = 160;

/// The bytes of a line so far, or of several, at most `ROOM`.
#[derive(Drop)]
pub(crate) struct Line {
    bytes: [u8; ROOM],
    length: usize,
}

impl Model for Line {
    ghost use Rattle.std.specs.Prelude.{List, ℕ, ◌≤◌, take};
    ghost use Rattle.lepton_run.specs.Lines.{line_room};

    ghost Value = { List ℕ };

    ghost view = { λ line. take line.length line.bytes };

    ghost invariant = { λ line. line.length ≤ line_room };
}

impl Line {
    pub(crate) fn new() -> Self
        ensures { result ≡ [] }
    {
        Line {
            bytes: [0; ROOM],
            length: 0,
        }
    }

    /// Adds the text at the end.
    pub(crate) fn push(&mut self, text: &[u8])
        requires { length self.old + length text.now ≤ line_room }
        ensures { self.new ≡ self.old ++ text.now }
    {
        let end = self.length + text.len();
        self.bytes[self.length..end].copy_from_slice(text);
        self.length = end;
    }

    /// Adds a number at the end, in decimal.
    pub(crate) fn push_number(&mut self, number: usize)
        requires { length self.old + 20 ≤ line_room }
        ensures text { self.new ≡ self.old ++ decimal number }
        ensures short { length self.new ≤ length self.old + 20 }
    {
        let mut digits = Buffer::new();
        self.push(digits.format(number).as_bytes());
    }

    pub(crate) fn bytes(&self) -> &[u8]
        ensures { result.now ≡ self.now }
    {
        &self.bytes[..self.length]
    }
}
