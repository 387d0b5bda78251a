// The top call, tried over ends in memory.
use crate::files::bytes_of;
use lepton_decode::{Workers, prepare, run as decode};
use lepton_run::run;
use outside_core::{Compare, Gate, MemSink, MemSource, OpenGate, Source, read_all};
use std::alloc::Global;
use std::process::Abort;
use std::sync::Wait;
use std::thread::Threads;

/// What a trial left.
#[derive(Drop)]
pub(crate) struct Trial {
    pub(crate) status: u8,
    pub(crate) written: Vec<u8>,
    pub(crate) noted: Vec<u8>,
    pub(crate) left: Vec<u8>,
}

impl Trial {
    /// Whether all was read, exactly these bytes were written, and nothing noted.
    pub(crate) fn is_done(&self, bytes: &[u8]) -> bool {
        self.status == 0
            && self.written.as_slice() == bytes
            && self.left.is_empty()
            && self.noted.is_empty()
    }
}

/// The calls that fail, by number from 1.
#[derive(Clone, Copy)]
pub(crate) struct Faults<'a> {
    pub(crate) reads: &'a [u64],
    pub(crate) writes: &'a [u64],
    pub(crate) notes: &'a [u64],
}

pub(crate) const NONE: Faults<'static> = Faults {
    reads: &[],
    writes: &[],
    notes: &[],
};

/// The room of a sink, and how many bytes it accepts a call.
#[derive(Clone, Copy)]
pub(crate) struct Room {
    pub(crate) bytes: usize,
    pub(crate) piece: usize,
}

/// The room of most sinks.
pub(crate) const SEVEN_A_CALL: Room = Room {
    bytes: 1 << 20,
    piece: 7,
};

/// Fails the test where a row doesn't hold, and says which: a word and a number.
pub(crate) fn assert_holds(rt: &impl Abort, holds: bool, what: &str, number: u64) {
    assert!(rt; holds, "{what} {number}");
}

/// Calls `run` with these arguments after the program's name, over a source of 16 bytes a call and sinks of 7.
pub(crate) fn run_over<R: Threads + Wait + Sync + Abort>(
    rt: &R,
    alloc: Global,
    words: &[&str],
    input: &[u8],
    faults: Faults,
) -> Trial {
    run_past(rt, alloc, words, input, faults, &OpenGate)
}

/// The same past a gate.
pub(crate) fn run_past<R: Threads + Wait + Sync + Abort, G: Gate + Sync>(
    rt: &R,
    alloc: Global,
    words: &[&str],
    input: &[u8],
    faults: Faults,
    gate: &G,
) -> Trial {
    let mut source = MemSource::new(input, 16, faults.reads);
    let tried = run_from(rt, alloc, words, &mut source, SEVEN_A_CALL, faults, gate);
    Trial {
        status: tried.status,
        written: tried.written,
        noted: tried.noted,
        left: rest_of(rt, alloc, &mut source),
    }
}

fn rest_of(rt: &impl Abort, alloc: Global, source: &mut MemSource) -> Vec<u8> {
    read_all(alloc, source, 1 << 20)
        .ok()
        .expect(rt, "what is left can't be read")
}

/// The same from a given source, of which nothing is read after the call.
pub(crate) fn run_from<R: Threads + Wait + Sync + Abort, S: Source, G: Gate + Sync>(
    rt: &R,
    alloc: Global,
    words: &[&str],
    source: &mut S,
    room: Room,
    faults: Faults,
    gate: &G,
) -> Trial
    requires { S.readable source.old }
{
    let mut sink = sink_of(rt, alloc, room, faults.writes);
    let mut note = sink_of(rt, alloc, SEVEN_A_CALL, faults.notes);
    let status = status_of(rt, alloc, words, source, &mut sink, &mut note, gate);
    Trial {
        status,
        written: bytes_of(rt, alloc, sink.bytes()),
        noted: bytes_of(rt, alloc, note.bytes()),
        left: Vec::new(alloc),
    }
}

fn sink_of<'a>(rt: &impl Abort, alloc: Global, room: Room, fails: &'a [u64]) -> MemSink<'a> {
    assert!(rt; 0 < room.piece);
    MemSink::new(alloc, room.bytes, room.piece, fails).expect(rt, "memory")
}

// The status that `run` answers. No other function calls it.
fn status_of<R: Threads + Wait + Sync + Abort, S: Source, G: Gate + Sync>(
    rt: &R,
    alloc: Global,
    words: &[&str],
    source: &mut S,
    sink: &mut MemSink,
    note: &mut MemSink,
    gate: &G,
) -> u8
    requires { S.readable source.old }
{
    let line = line(rt, alloc, words);
    let ending = run(rt, alloc, line.as_slice(), source, sink, note, gate);
    ending.status()
}

fn line(rt: &impl Abort, alloc: Global, words: &[&str]) -> Vec<String> {
    let mut line = Vec::new(alloc);
    push(rt, alloc, &mut line, "lepton");
    for word in words {
        push(rt, alloc, &mut line, word);
    }
    line
}

fn push(rt: &impl Abort, alloc: Global, line: &mut Vec<String>, word: &str) {
    let word = String::from_str(alloc, word).expect(rt, "memory");
    line.push(word).expect(rt, "memory");
}

/// Whether this number of workers gives the file past a gate, with rings of this number of bytes.
pub(crate) fn comes_back<R: Threads + Wait + Sync + Abort, G: Gate + Sync>(
    rt: &R,
    alloc: Global,
    container: &[u8],
    file: &[u8],
    workers: u8,
    ring: u32,
    gate: &G,
) -> bool {
    assert!(rt; 1 <= ring);
    let mut ready = prepare(alloc, container, Workers::Given(workers), ring)
        .ok()
        .expect(rt, "it is refused");
    let mut sink = Compare::new(file);
    let restored = decode(&mut ready, rt, &mut sink, gate);
    restored == Ok(file.len() as u64) && sink.agreed() == file.len() as u64
}
