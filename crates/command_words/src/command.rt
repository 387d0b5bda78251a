// The command that the arguments mean.
ghost use Rattle.std.specs.Prelude.{◌≡◌, ◌≢◌, ℕ, [], map, string_bytes, IfOk, IfSome, IfNone, IsErrOf};
ghost use Rattle.clap.specs.Words.{found_of, rows_of, subcommand_rows_of};
ghost use Rattle.command_words.specs.LeptonApp.{faults, given};
ghost use Rattle.command_words.specs.Meaning.{Asks, IsInRange, Means, Reads};

use crate::words::known_words;
use allocation::{NoMemory, try_get_matches_from};
use clap::ArgMatches;
use std::alloc::Global;

/// What the arguments mean.
#[derive(Clone, Copy, Debug, PartialEq, Eq)]
pub enum Command {
    /// Make a container in at most this many segments, 1 to 64.
    Encode { segments: u8 },
    /// Give the file back with at most this many workers, 0 to 16.
    Decode { workers: u8 },
    /// Make the same container in version 2.
    Migrate,
    /// Make the container of one chunk of a file: of its chunks of this size, 1 to 67108864 bytes, the one with this
    /// number, 0 to 4294967295, in at most this many segments, 1 to 64.
    Chunk { index: u32, size: u32, segments: u8 },
    /// Make the same container in version 5, with the places of its segments in the file.
    Index,
    /// Give the file's bytes from one place to before another, 0 to 1099511627775 each, with at most this many workers,
    /// 0 to 16.
    Range { from: u64, to: u64, workers: u8 },
    /// Make a sample from this seed, 0 to 4294967295, with this many columns and rows, 1 to 256 each.
    Sample { seed: u32, columns: u16, rows: u16 },
}

/// Why arguments mean no command.
#[derive(Clone, Copy, Debug, PartialEq, Eq)]
pub enum WordsError {
    /// They mean none, or ask for help.
    Refused,
    /// Out of memory.
    NoMemory(NoMemory),
}

impl From<NoMemory> for WordsError {
    ghost use Rattle.std.specs.Prelude.{◌≡◌};
    ghost use Rattle.command_words.specs.declared.command.WordsError.TheVariants.{NoMemory};

    ghost from_gives = { λ short error. error ≡ NoMemory short };

    fn from(short: NoMemory) -> Self {
        WordsError::NoMemory(short)
    }
}

/// The command that the arguments mean. The first one is the program's name.
#[inline(never)]
pub fn command_of(alloc: Global, words: &[String]) -> Result<Command, WordsError>
    ensures taken { IfOk result (λ command. Means (map string_bytes words.now) command) }
    ensures refused { IsErrOf result WordsError.Refused
        → (command : Command) → ¬ Means (map string_bytes words.now) command }
    ensures in_range { IfOk result IsInRange }
{
    let matches = parsed(alloc, words)?;
    asked(&matches).ok_or(WordsError::Refused)
}

// What clap makes of the arguments, unless it refuses them.
fn parsed<'a>(alloc: Global, words: &'a [String]) -> Result<ArgMatches<'a>, WordsError>
    ensures taken { IfOk result (λ matches. faults (map string_bytes words.entry.now) ≡ []) }
    ensures matches { IfOk result (λ matches.
        subcommand_rows_of matches ≡ given (map string_bytes words.entry.now)) }
    ensures refused { IsErrOf result WordsError.Refused
        → faults (map string_bytes words.entry.now) ≢ [] }
{
    let known = known_words(alloc)?;
    let answer = try_get_matches_from(known, words)?;
    match answer {
        Ok(matches) => Ok(matches),
        Err(_) => Err(WordsError::Refused),
    }
}

// The command that the subcommand stands for, if its options have numbers.
fn asked(matches: &ArgMatches) -> Option<Command>
    ensures some { IfSome result (Asks (subcommand_rows_of matches.now)) }
    ensures none { IfNone result ((command : Command)
        → ¬ Asks (subcommand_rows_of matches.now) command) }
{
    match matches.subcommand()? {
        ("encode", options) => {
            let segments = u8_of(options, "segments")?;
            Some(Command::Encode { segments })
        }
        ("decode", options) => {
            let workers = u8_of(options, "workers")?;
            Some(Command::Decode { workers })
        }
        ("migrate", _) => Some(Command::Migrate),
        ("chunk", options) => {
            let index = u32_of(options, "index")?;
            let size = u32_of(options, "size")?;
            let segments = u8_of(options, "segments")?;
            Some(Command::Chunk {
                index,
                size,
                segments,
            })
        }
        ("index", _) => Some(Command::Index),
        ("range", options) => {
            let from = u64_of(options, "from")?;
            let to = u64_of(options, "to")?;
            let workers = u8_of(options, "workers")?;
            Some(Command::Range { from, to, workers })
        }
        ("sample", options) => {
            let seed = u32_of(options, "seed")?;
            let columns = u16_of(options, "columns")?;
            let rows = u16_of(options, "rows")?;
            Some(Command::Sample {
                seed,
                columns,
                rows,
            })
        }
        _ => None,
    }
}

// The number of 8 bits that an option was given, or else its usual one.
fn u8_of(options: &ArgMatches, option: &str) -> Option<u8>
    ensures some { IfSome result (Reads 8 (rows_of (found_of options.now)) option.now) }
    ensures none { IfNone result ((number : ℕ)
        → ¬ Reads 8 (rows_of (found_of options.now)) option.now number) }
{
    options.get_one::<u8>(option)
}

// The same, of 16 bits.
fn u16_of(options: &ArgMatches, option: &str) -> Option<u16>
    ensures some { IfSome result (Reads 16 (rows_of (found_of options.now)) option.now) }
    ensures none { IfNone result ((number : ℕ)
        → ¬ Reads 16 (rows_of (found_of options.now)) option.now number) }
{
    options.get_one::<u16>(option)
}

// The same, of 32 bits.
fn u32_of(options: &ArgMatches, option: &str) -> Option<u32>
    ensures some { IfSome result (Reads 32 (rows_of (found_of options.now)) option.now) }
    ensures none { IfNone result ((number : ℕ)
        → ¬ Reads 32 (rows_of (found_of options.now)) option.now number) }
{
    options.get_one::<u32>(option)
}

// The same, of 64 bits.
fn u64_of(options: &ArgMatches, option: &str) -> Option<u64>
    ensures some { IfSome result (Reads 64 (rows_of (found_of options.now)) option.now) }
    ensures none { IfNone result ((number : ℕ)
        → ¬ Reads 64 (rows_of (found_of options.now)) option.now number) }
{
    options.get_one::<u64>(option)
}
