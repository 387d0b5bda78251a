// A note that fails.
use crate::rows::{LEAST, Row};
use crate::trial::{Faults, Trial, assert_holds, run_over};
use std::alloc::Global;
use std::process::Abort;
use std::sync::Wait;
use std::thread::Threads;

/// One end of the program: its status and line, the word, which input is given, how many bytes of it, and the numbers
/// of the read and the write that fail.
struct Said<'a> {
    status: u8,
    line: &'a str,
    word: &'a str,
    input: u8,
    length: usize,
    read: u64,
    write: u64,
}

/// The least file, its container, and the same with a fault in the stream.
const FILE: u8 = 0;

const CONTAINER: u8 = 1;

const FAULTY_CONTAINER: u8 = 2;

/// No call has this number.
const NO_CALL: u64 = 0;

const SAID: &[Said<'static>] = &[
    Said {
        status: 0,
        line: "",
        word: "encode",
        input: FILE,
        length: 72,
        read: NO_CALL,
        write: NO_CALL,
    },
    Said {
        status: 0,
        line: "",
        word: "decode",
        input: CONTAINER,
        length: 115,
        read: NO_CALL,
        write: NO_CALL,
    },
    Said {
        status: 0,
        line: "",
        word: "migrate",
        input: CONTAINER,
        length: 115,
        read: NO_CALL,
        write: NO_CALL,
    },
    Said {
        status: 1,
        line: "lepton: refused 32 BoxCut\n",
        word: "migrate",
        input: CONTAINER,
        length: 114,
        read: NO_CALL,
        write: NO_CALL,
    },
    Said {
        status: 1,
        line: "lepton: refused 2 HeaderCut\n",
        word: "encode",
        input: FILE,
        length: 3,
        read: NO_CALL,
        write: NO_CALL,
    },
    Said {
        status: 1,
        line: "lepton: refused 30 BoxMagic\n",
        word: "decode",
        input: FILE,
        length: 72,
        read: NO_CALL,
        write: NO_CALL,
    },
    Said {
        status: 1,
        line: "lepton: refused 45 StreamBad segment 0\n",
        word: "decode",
        input: FAULTY_CONTAINER,
        length: 115,
        read: NO_CALL,
        write: NO_CALL,
    },
    Said {
        status: 2,
        line: "lepton: words refused\n",
        word: "recode",
        input: FILE,
        length: 72,
        read: NO_CALL,
        write: NO_CALL,
    },
    Said {
        status: 3,
        line: "lepton: read failed\n",
        word: "encode",
        input: FILE,
        length: 72,
        read: 2,
        write: NO_CALL,
    },
    Said {
        status: 4,
        line: "lepton: write failed\n",
        word: "encode",
        input: FILE,
        length: 72,
        read: NO_CALL,
        write: 3,
    },
];

// What is read.
fn input_of(rt: &impl Abort, alloc: Global, said: &Said) -> Vec<u8> {
    let mut input = whole_input(rt, alloc, said.input);
    input.truncate(said.length);
    input
}

fn whole_input(rt: &impl Abort, alloc: Global, input: u8) -> Vec<u8> {
    match input {
        FILE => LEAST.file(rt, alloc),
        CONTAINER => LEAST.container(rt, alloc),
        _ => Row {
            stream: &[0, 0, 1],
            ..LEAST
        }
        .container(rt, alloc),
    }
}

// The end, with the note's call of this number failing.
fn ended<R: Threads + Wait + Sync + Abort>(rt: &R, alloc: Global, said: &Said, note: u64) -> Trial {
    let input = input_of(rt, alloc, said);
    let reads = [said.read];
    let writes = [said.write];
    let notes = [note];
    let faults = Faults {
        reads: &reads,
        writes: &writes,
        notes: &notes,
    };
    run_over(rt, alloc, &[said.word], input.as_slice(), faults)
}

fn is_as_before(tried: &Trial, whole: &Trial) -> bool {
    tried.status == whole.status
        && tried.written.as_slice() == whole.written.as_slice()
        && tried.left.as_slice() == whole.left.as_slice()
}

// A note that fails at any of its calls changes no status, nothing that is written and nothing that is read. It holds
// the pieces of 7 bytes of its line that came before that call. No line has more than six.
#[test]
fn a_note_that_fails(rt: HostRuntime) {
    for said in SAID {
        assert_said(&rt, rt.alloc(), said);
    }
}

fn assert_said<R: Threads + Wait + Sync + Abort>(rt: &R, alloc: Global, said: &Said) {
    let whole = ended(rt, alloc, said, NO_CALL);
    assert_holds(rt, is_said_whole(&whole, said), said.line, NO_CALL);
    for n in 1..7u64 {
        let tried = ended(rt, alloc, said, n);
        assert_holds(rt, is_as_before(&tried, &whole), said.line, n);
        let is_first = is_first(tried.noted.as_slice(), said.line, 7 * (n - 1));
        assert_holds(rt, is_first, said.line, n);
    }
}

fn is_said_whole(whole: &Trial, said: &Said) -> bool {
    whole.status == said.status && whole.noted.as_slice() == said.line.as_bytes()
}

// Whether these are the first bytes of the line: the given number of them, or all.
fn is_first(noted: &[u8], line: &str, length: u64) -> bool {
    line.as_bytes().starts_with(noted) && noted.len() as u64 == length.min(line.len() as u64)
}
