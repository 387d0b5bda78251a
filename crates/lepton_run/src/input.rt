// What a command takes.
ghost use Rattle.std.specs.Prelude.{◌≡◌};
ghost use Rattle.lepton_run.specs.Answers.{input_of, limit_of, reads};

use command_words::Command;

/// The most bytes of a file: 64 MiB.
const MOST_OF_A_FILE: u64 = 67_108_864;

/// The most bytes of a container: 32 GiB.
const MOST_OF_A_CONTAINER: u64 = 34_359_738_368;

/// What a command takes of its source.
#[derive(Clone, Copy, Debug, PartialEq, Eq)]
pub(crate) enum Input {
    /// A file, at most 64 MiB.
    File,
    /// A container, at most 32 GiB.
    Container,
    /// Nothing.
    Nothing,
}

/// What a command takes.
fn input_of(command: Command) -> Input
    ensures { result ≡ input_of command }
{
    match command {
        Command::Encode { .. } | Command::Chunk { .. } => Input::File,
        Command::Decode { .. } | Command::Migrate => Input::Container,
        Command::Index | Command::Range { .. } => Input::Container,
        Command::Sample { .. } => Input::Nothing,
    }
}

/// The most bytes that a command takes.
pub(crate) fn limit(command: Command) -> u64
    ensures { result ≡ limit_of command }
{
    match input_of(command) {
        Input::File => MOST_OF_A_FILE,
        Input::Container => MOST_OF_A_CONTAINER,
        Input::Nothing => 0,
    }
}

/// Whether a command takes bytes of its source.
pub(crate) fn reads(command: Command) -> bool
    ensures { result ≡ reads command }
{
    match input_of(command) {
        Input::File | Input::Container => true,
        Input::Nothing => false,
    }
}
