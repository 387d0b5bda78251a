// Commands of `clap`.
ghost use Rattle.std.specs.Prelude.{◌≡◌, ◌≢◌, true, map, string_bytes, IfOk, IfErr, IsErrAnd, OnErr};
ghost use Rattle.clap.specs.Values.{kind_of};
ghost use Rattle.clap.specs.declared.error.kind.ErrorKind.TheVariants.{OutOfMemory};
ghost use Rattle.clap.specs.Words.{AddsArg, AddsSubcommand, FailsBy, HasMatchesOf, app_of, fault_of, is_simple_and_free};

use crate::no_memory::NoMemory;
use clap::error::ErrorKind;
use clap::{Arg, ArgMatches, Command, Error};

/// Adds an argument.
pub fn arg<'a>(command: Command<'a>, arg: Arg<'a>) -> Result<Command<'a>, NoMemory>
    ensures { IfOk result (λ more. AddsArg command.entry arg.entry more) }
{
    match command.arg(arg) {
        Ok(more) => Ok(more),
        Err(_) => Err(NoMemory::new()),
    }
}

/// Adds a subcommand.
pub fn subcommand<'a>(command: Command<'a>, sub: Command<'a>) -> Result<Command<'a>, NoMemory>
    ensures { IfOk result (λ more. AddsSubcommand command.entry sub.entry more) }
{
    match command.subcommand(sub) {
        Ok(more) => Ok(more),
        Err(_) => Err(NoMemory::new()),
    }
}

/// Parses `words`, of which the first is the program's name: what they match, or why they are refused.
pub fn try_get_matches_from<'a>(
    command: Command<'a>,
    words: &'a [String],
) -> Result<Result<ArgMatches<'a>, Error>, NoMemory>
    ensures matches { IfOk result (λ answer. IfOk answer (HasMatchesOf (app_of command.entry)
        (map string_bytes words.entry.now))) }
    ensures kinds { IfOk result (λ answer. is_simple_and_free (app_of command.entry) ≡ true
        → FailsBy (fault_of (app_of command.entry) (map string_bytes words.entry.now)) answer) }
    ensures refused { IfOk result (λ answer. IfErr answer (λ error.
        kind_of error ≢ OutOfMemory)) }
{
    told(command.try_get_matches_from(words))
}

// The answer of `clap`, without its error for no memory.
fn told<'a>(
    answer: Result<ArgMatches<'a>, Error>,
) -> Result<Result<ArgMatches<'a>, Error>, NoMemory>
    ensures same { IfOk result (λ same. same ≡ answer.entry) }
    ensures memory { OnErr result (IsErrAnd answer.entry (λ error. kind_of error ≡ OutOfMemory)) }
    ensures refused { IfOk result (λ same. IfErr same (λ error. kind_of error ≢ OutOfMemory)) }
{
    match answer {
        Ok(matches) => Ok(Ok(matches)),
        Err(error) => match error.kind() {
            ErrorKind::OutOfMemory => Err(NoMemory::new()),
            _ => Ok(Err(error)),
        },
    }
}
