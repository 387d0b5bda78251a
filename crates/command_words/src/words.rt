// The arguments that are known, as clap needs them.
ghost use Rattle.std.specs.Prelude.{◌≡◌, false, IfOk, codes, pos};
ghost use Rattle.clap.specs.declared.builder.value_parser.ValueParser.TheVariants.{Signed};
ghost use Rattle.clap.specs.Words.{app_of, rule_of, with_subcommand};
ghost use Rattle.command_words.specs.LeptonApp.{chunk_app, decode_app, encode_app, index_app, lepton_app, migrate_app, number_rule, range_app, required_rule, sample_app};

use allocation::{NoMemory, arg, subcommand};
use clap::builder::ValueParser;
use clap::{Arg, value_parser};
use std::alloc::Global;

/// The program with its seven subcommands, of which one must be named.
pub(crate) fn known_words<'a>(alloc: Global) -> Result<clap::Command<'a>, NoMemory>
    ensures { IfOk result (λ known. app_of known ≡ lepton_app) }
{
    let known = clap::Command::new(alloc, "lepton").subcommand_required(true);
    let known = with_encode(alloc, known)?;
    let known = with_decode(alloc, known)?;
    let known = with_migrate(alloc, known)?;
    let known = with_chunk(alloc, known)?;
    let known = with_index(alloc, known)?;
    let known = with_range(alloc, known)?;
    with_sample(alloc, known)
}

// The program with one subcommand more.
fn with_encode<'a>(alloc: Global, known: clap::Command<'a>) -> Result<clap::Command<'a>, NoMemory>
    ensures { IfOk result (λ more. app_of more
        ≡ with_subcommand (app_of known.entry) encode_app.top) }
{
    let segments = segments_option(alloc);
    let encode = arg(clap::Command::new(alloc, "encode"), segments)?;
    subcommand(known, encode)
}

fn with_decode<'a>(alloc: Global, known: clap::Command<'a>) -> Result<clap::Command<'a>, NoMemory>
    ensures { IfOk result (λ more. app_of more
        ≡ with_subcommand (app_of known.entry) decode_app.top) }
{
    let workers = workers_option(alloc);
    let decode = arg(clap::Command::new(alloc, "decode"), workers)?;
    subcommand(known, decode)
}

fn with_migrate<'a>(alloc: Global, known: clap::Command<'a>) -> Result<clap::Command<'a>, NoMemory>
    ensures { IfOk result (λ more. app_of more
        ≡ with_subcommand (app_of known.entry) migrate_app.top) }
{
    subcommand(known, clap::Command::new(alloc, "migrate"))
}

fn with_chunk<'a>(alloc: Global, known: clap::Command<'a>) -> Result<clap::Command<'a>, NoMemory>
    ensures { IfOk result (λ more. app_of more
        ≡ with_subcommand (app_of known.entry) chunk_app.top) }
{
    let index = number_option(
        alloc,
        "index",
        value_parser!(u32).range(0..=4294967295),
        "0",
    );
    let size = number_option(
        alloc,
        "size",
        value_parser!(u32).range(1..=67108864),
        "4194304",
    );
    let segments = segments_option(alloc);
    let chunk = arg(clap::Command::new(alloc, "chunk"), index)?;
    let chunk = arg(chunk, size)?;
    let chunk = arg(chunk, segments)?;
    subcommand(known, chunk)
}

fn with_index<'a>(alloc: Global, known: clap::Command<'a>) -> Result<clap::Command<'a>, NoMemory>
    ensures { IfOk result (λ more. app_of more
        ≡ with_subcommand (app_of known.entry) index_app.top) }
{
    subcommand(known, clap::Command::new(alloc, "index"))
}

fn with_range<'a>(alloc: Global, known: clap::Command<'a>) -> Result<clap::Command<'a>, NoMemory>
    ensures { IfOk result (λ more. app_of more
        ≡ with_subcommand (app_of known.entry) range_app.top) }
{
    let from = required_option(alloc, "from", value_parser!(u64).range(0..=1099511627775));
    let to = required_option(alloc, "to", value_parser!(u64).range(0..=1099511627775));
    let workers = workers_option(alloc);
    let range = arg(clap::Command::new(alloc, "range"), from)?;
    let range = arg(range, to)?;
    let range = arg(range, workers)?;
    subcommand(known, range)
}

fn with_sample<'a>(alloc: Global, known: clap::Command<'a>) -> Result<clap::Command<'a>, NoMemory>
    ensures { IfOk result (λ more. app_of more
        ≡ with_subcommand (app_of known.entry) sample_app.top) }
{
    let seed = required_option(alloc, "seed", value_parser!(u32).range(0..=4294967295));
    let columns = required_option(alloc, "columns", value_parser!(u16).range(1..=256));
    let rows = required_option(alloc, "rows", value_parser!(u16).range(1..=256));
    let sample = arg(clap::Command::new(alloc, "sample"), seed)?;
    let sample = arg(sample, columns)?;
    let sample = arg(sample, rows)?;
    subcommand(known, sample)
}

// How many segments there may be at most, of a file or of a chunk.
fn segments_option<'a>(alloc: Global) -> Arg<'a>
    ensures rule { rule_of result
        ≡ number_rule (codes "segments") (Signed (pos 1) (pos 64)) (codes "8") }
    ensures local { result.global ≡ false }
{
    number_option(alloc, "segments", value_parser!(u8).range(1..=64), "8")
}

// How many workers there may be at most.
fn workers_option<'a>(alloc: Global) -> Arg<'a>
    ensures rule { rule_of result
        ≡ number_rule (codes "workers") (Signed (pos 0) (pos 16)) (codes "4") }
    ensures local { result.global ≡ false }
{
    number_option(alloc, "workers", value_parser!(u8).range(0..=16), "4")
}

// An option with a number, `usual` where it is left out.
fn number_option<'a>(
    alloc: Global,
    name: &'a str,
    numbers: ValueParser<'a>,
    usual: &'a str,
) -> Arg<'a>
    ensures rule { rule_of result ≡ number_rule name.entry.now numbers.entry usual.entry.now }
    ensures local { result.global ≡ false }
{
    Arg::new(alloc, name)
        .long(name)
        .value_parser(numbers)
        .default_value(usual)
}

// An option with a number that has to be given.
fn required_option<'a>(alloc: Global, name: &'a str, numbers: ValueParser<'a>) -> Arg<'a>
    ensures rule { rule_of result ≡ required_rule name.entry.now numbers.entry }
    ensures local { result.global ≡ false }
{
    Arg::new(alloc, name)
        .long(name)
        .value_parser(numbers)
        .required(true)
}
