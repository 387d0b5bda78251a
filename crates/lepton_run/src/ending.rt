// How a command ends, and the line that says so.
ghost use Rattle.std.specs.Prelude.{◌≡◌};
ghost use Rattle.lepton_run.specs.Endings.{ending_line, status_at};

use crate::line::Line;
use crate::refusal::Refusal;
use allocation::NoMemory;

/// How a command ended.
#[derive(Clone, Copy, Debug, PartialEq, Eq)]
pub enum Ending {
    /// What was asked for is written.
    Done,
    /// The bytes are refused.
    Refused(Refusal),
    /// The arguments mean no command.
    WordsRefused,
    /// The source failed.
    ReadFailed,
    /// The sink failed.
    WriteFailed,
    /// Out of memory.
    NoMemory(NoMemory),
}

impl Ending {
    /// The status of the program.
    pub fn status(&self) -> u8
        ensures { result ≡ status_at self.now }
    {
        match *self {
            Ending::Done => 0,
            Ending::Refused(_) => 1,
            Ending::WordsRefused => 2,
            Ending::ReadFailed => 3,
            Ending::WriteFailed => 4,
            Ending::NoMemory(_) => 5,
        }
    }

    /// The line that says so.
    pub(crate) fn line(&self) -> Line
        ensures { result ≡ ending_line self.now }
    {
        let mut line = Line::new();
        match *self {
            Ending::Done => return line,
            Ending::Refused(refusal) => {
                line.push(b"lepton: refused ");
                refusal.note(&mut line);
            }
            Ending::WordsRefused => line.push(b"lepton: words refused"),
            Ending::ReadFailed => line.push(b"lepton: read failed"),
            Ending::WriteFailed => line.push(b"lepton: write failed"),
            Ending::NoMemory(_) => line.push(b"lepton: no memory"),
        }
        line.push(b"\n");
        line
    }
}
