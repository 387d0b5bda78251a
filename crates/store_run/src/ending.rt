// How a run of the store ends.
ghost use Rattle.std.specs.Prelude.{◌≡◌};
ghost use Rattle.store_run.specs.RunEnds.{line_of, status_of};

use allocation::NoMemory;

/// How a run ends.
#[derive(Clone, Copy, Debug, PartialEq, Eq)]
pub enum Ending {
    /// The input was answered to its end.
    Answered,
    /// A record has another first byte, or a length above 67,108,864, or is cut.
    BadRecord,
    ReadFailed,
    WriteFailed,
    NoMemory(NoMemory),
    KeeperFailed,
    /// 1,000,000 records were answered, and the input has more.
    Full,
}

impl Ending {
    /// The status of the program.
    pub fn status(&self) -> u8
        ensures { result ≡ status_of self.now }
    {
        match *self {
            Ending::Answered => 0,
            Ending::BadRecord => 1,
            Ending::ReadFailed => 3,
            Ending::WriteFailed => 4,
            Ending::NoMemory(_) => 5,
            Ending::KeeperFailed => 6,
            Ending::Full => 7,
        }
    }

    /// The line on stderr; nothing if the input was answered to its end.
    pub fn line(&self) -> &'static [u8]
        ensures { result.now ≡ line_of self.now }
    {
        match *self {
            Ending::Answered => b"",
            Ending::BadRecord => b"store: bad record\n",
            Ending::ReadFailed => b"lepton: read failed\n",
            Ending::WriteFailed => b"lepton: write failed\n",
            Ending::NoMemory(_) => b"lepton: no memory\n",
            Ending::KeeperFailed => b"store: keeper failed\n",
            Ending::Full => b"store: full\n",
        }
    }
}
