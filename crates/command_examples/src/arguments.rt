// Arguments with ample memory, as clap accepts or rejects them.
use command_words::{Command, WordsError, command_of};
use std::alloc::{AllocError, Global};
use std::test::Fail;

// The arguments after the program's name, and the command that they mean.
const COMMANDS: &[(&[&str], Command)] = &[
    (&["encode"], Command::Encode { segments: 8 }),
    (&["decode"], Command::Decode { workers: 4 }),
    (
        &["encode", "--segments", "1"],
        Command::Encode { segments: 1 },
    ),
    (
        &["encode", "--segments", "3"],
        Command::Encode { segments: 3 },
    ),
    (
        &["encode", "--segments=64"],
        Command::Encode { segments: 64 },
    ),
    (
        &["encode", "--segments", "08"],
        Command::Encode { segments: 8 },
    ),
    (
        &["encode", "--segments=+3"],
        Command::Encode { segments: 3 },
    ),
    (&["encode", "--"], Command::Encode { segments: 8 }),
    (
        &["decode", "--workers", "0"],
        Command::Decode { workers: 0 },
    ),
    (&["decode", "--workers=-0"], Command::Decode { workers: 0 }),
    (&["decode", "--workers=16"], Command::Decode { workers: 16 }),
    (&["migrate"], Command::Migrate),
    (&["migrate", "--"], Command::Migrate),
    (&["index"], Command::Index),
];

// The same for a chunk: its number and its size, and the segments, that they mean.
const CHUNKS: &[(&[&str], [u32; 2], u8)] = &[
    (&["chunk"], [0, 4194304], 8),
    (&["chunk", "--"], [0, 4194304], 8),
    (
        &["chunk", "--index", "4294967295"],
        [4294967295, 4194304],
        8,
    ),
    (&["chunk", "--index=-0"], [0, 4194304], 8),
    (&["chunk", "--size", "1"], [0, 1], 8),
    (&["chunk", "--size=67108864"], [0, 67108864], 8),
    (&["chunk", "--segments=1"], [0, 4194304], 1),
    (&["chunk", "--segments", "64"], [0, 4194304], 64),
    (
        &["chunk", "--segments", "02", "--index=+3", "--size", "4"],
        [3, 4],
        2,
    ),
];

// The same for a range: the places and the workers that they mean.
const RANGES: &[(&[&str], [u64; 2], u8)] = &[
    (&["range", "--from=0", "--to=0"], [0, 0], 4),
    (
        &["range", "--from", "1099511627775", "--to", "0"],
        [1099511627775, 0],
        4,
    ),
    (
        &["range", "--workers=0", "--to=+8", "--from=007"],
        [7, 8],
        0,
    ),
    (
        &[
            "range",
            "--to",
            "1099511627775",
            "--workers",
            "16",
            "--from=0",
        ],
        [0, 1099511627775],
        16,
    ),
];

// The same for a sample: the seed, the columns and the rows that they mean.
const SAMPLES: &[(&[&str], u32, [u16; 2])] = &[
    (
        &["sample", "--seed=2", "--columns=256", "--rows=256"],
        2,
        [256, 256],
    ),
    (
        &["sample", "--rows=3", "--seed=0", "--columns", "4"],
        0,
        [4, 3],
    ),
    (
        &["sample", "--seed=4294967295", "--columns=1", "--rows=1"],
        4294967295,
        [1, 1],
    ),
    (
        &["sample", "--columns", "08", "--rows=+9", "--seed=-0"],
        0,
        [8, 9],
    ),
];

const REFUSED: &[&[&str]] = &[
    &[],
    &[""],
    &["recode"],
    &["Encode"],
    &["help"],
    &["--help"],
    &["--version"],
    &["encode", "-h"],
    &["encode", "x"],
    &["encode", "decode"],
    &["encode", "--workers", "1"],
    &["encode", "--segment", "3"],
    &["encode", "--segments"],
    &["encode", "--segments", ""],
    &["encode", "--segments", "0"],
    &["encode", "--segments", "65"],
    &["encode", "--segments", "264"],
    &["encode", "--segments", "-1"],
    &["encode", "--segments", "8", "--segments", "9"],
    &["--segments", "3", "encode"],
    &["decode", "--workers", "17"],
    &["decode", "--segments", "8"],
    &["encode", "--seed", "1"],
    &["Migrate"],
    &["migrate", "x"],
    &["migrate", "migrate"],
    &["migrate", "--segments", "8"],
    &["migrate", "--workers", "1"],
    &["migrate", "-h"],
];

const REFUSED_CHUNKS: &[&[&str]] = &[
    &["Chunk"],
    &["chunk", "-h"],
    &["chunk", "x"],
    &["chunk", "chunk"],
    &["chunk", "--index"],
    &["chunk", "--index", ""],
    &["chunk", "--index", "4294967296"],
    &["chunk", "--index", "-1"],
    &["chunk", "--size", "0"],
    &["chunk", "--size", "67108865"],
    &["chunk", "--size", "-1"],
    &["chunk", "--segments", "0"],
    &["chunk", "--segments", "65"],
    &["chunk", "--segments", "-1"],
    &["chunk", "--index=1", "--index=1"],
    &["chunk", "--size=1", "--size=1"],
    &["chunk", "--workers", "1"],
    &["--index", "1", "chunk"],
    &["encode", "--index", "1"],
    &["migrate", "--size", "1"],
];

const REFUSED_RANGES: &[&[&str]] = &[
    &["range"],
    &["range", "--from=0"],
    &["range", "--to=0"],
    &["range", "--from=0", "--to"],
    &["range", "--from=-1", "--to=1"],
    &["range", "--from=-0", "--to=1"],
    &["range", "--from=0", "--to=1099511627776"],
    &["range", "--from=1099511627776", "--to=0"],
    &["range", "--from=0", "--to=18446744073709551616"],
    &["range", "--from=0", "--to=1", "--workers=17"],
    &["range", "--from=0", "--to=1", "--to=1"],
    &["range", "--from=0", "--to=1", "x"],
    &["index", "x"],
    &["index", "--workers=1"],
    &["decode", "--from=0", "--to=1"],
];

const REFUSED_SAMPLES: &[&[&str]] = &[
    &["sample"],
    &["sample", "--seed=1", "--columns=1"],
    &["sample", "--seed=1", "--rows=1"],
    &["sample", "--columns=1", "--rows=1"],
    &["sample", "--seed=1", "--columns=1", "--rows"],
    &["sample", "--seed=1", "--columns=0", "--rows=1"],
    &["sample", "--seed=1", "--columns=257", "--rows=1"],
    &["sample", "--seed=1", "--columns=1", "--rows=0"],
    &["sample", "--seed=1", "--columns=1", "--rows=257"],
    &["sample", "--seed=1", "--columns=1", "--rows=65537"],
    &["sample", "--seed=4294967296", "--columns=1", "--rows=1"],
    &["sample", "--seed=-1", "--columns=1", "--rows=1"],
    &["sample", "--seed=1", "--seed=1", "--columns=1", "--rows=1"],
    &["sample", "--seed=1", "--columns=1", "--rows=1", "-h"],
    &["sample", "--seed=1", "--columns=1", "--rows=1", "x"],
];

#[test]
fn segments_and_workers_are_read(rt: HostRuntime) -> Result<(), Fail> {
    for (given, command) in COMMANDS {
        assert!(rt; means(rt.alloc(), given, Ok(*command))?, "{given:?}");
    }
    Ok(())
}

#[test]
fn numbers_of_a_chunk_are_read(rt: HostRuntime) -> Result<(), Fail> {
    for (given, place, segments) in CHUNKS {
        assert!(rt;
            means(rt.alloc(), given, Ok(chunk(*place, *segments)))?,
            "{given:?}"
        );
    }
    Ok(())
}

fn chunk(place: [u32; 2], segments: u8) -> Command {
    Command::Chunk {
        index: place[0],
        size: place[1],
        segments,
    }
}

#[test]
fn numbers_of_a_range_are_read(rt: HostRuntime) -> Result<(), Fail> {
    for (given, places, workers) in RANGES {
        assert!(rt;
            means(rt.alloc(), given, Ok(range(*places, *workers)))?,
            "{given:?}"
        );
    }
    Ok(())
}

fn range(places: [u64; 2], workers: u8) -> Command {
    Command::Range {
        from: places[0],
        to: places[1],
        workers,
    }
}

#[test]
fn numbers_of_a_sample_are_read(rt: HostRuntime) -> Result<(), Fail> {
    for (given, seed, size) in SAMPLES {
        assert!(rt;
            means(rt.alloc(), given, Ok(sample(*seed, *size)))?,
            "{given:?}"
        );
    }
    Ok(())
}

fn sample(seed: u32, size: [u16; 2]) -> Command {
    Command::Sample {
        seed,
        columns: size[0],
        rows: size[1],
    }
}

#[test]
fn other_arguments_are_rejected(rt: HostRuntime) -> Result<(), Fail> {
    for given in REFUSED {
        assert!(rt;
            means(rt.alloc(), given, Err(WordsError::Refused))?,
            "{given:?}"
        );
    }
    Ok(())
}

#[test]
fn other_arguments_of_a_chunk_are_rejected(rt: HostRuntime) -> Result<(), Fail> {
    for given in REFUSED_CHUNKS {
        assert!(rt;
            means(rt.alloc(), given, Err(WordsError::Refused))?,
            "{given:?}"
        );
    }
    Ok(())
}

#[test]
fn other_arguments_of_a_range_are_rejected(rt: HostRuntime) -> Result<(), Fail> {
    for given in REFUSED_RANGES {
        assert!(rt;
            means(rt.alloc(), given, Err(WordsError::Refused))?,
            "{given:?}"
        );
    }
    Ok(())
}

#[test]
fn other_arguments_of_a_sample_are_rejected(rt: HostRuntime) -> Result<(), Fail> {
    for given in REFUSED_SAMPLES {
        assert!(rt;
            means(rt.alloc(), given, Err(WordsError::Refused))?,
            "{given:?}"
        );
    }
    Ok(())
}

// Whether this is the answer to the arguments after the program's name.
fn means(
    alloc: Global,
    given: &[&str],
    meant: Result<Command, WordsError>,
) -> Result<bool, AllocError> {
    let line = line(alloc, given)?;
    Ok(command_of(alloc, line.as_slice()) == meant)
}

fn line(alloc: Global, given: &[&str]) -> Result<Vec<String>, AllocError> {
    let mut line = Vec::new(alloc);
    line.push(String::from_str(alloc, "lepton")?)?;
    for argument in given {
        line.push(String::from_str(alloc, argument)?)?;
    }
    Ok(line)
}

// Not even the program's name.
#[test]
fn no_arguments_are_rejected(rt: HostRuntime) {
    assert!(rt; command_of(rt.alloc(), &[]) == Err(WordsError::Refused));
}
