// What `run` may write at each moment: the container of the least file, and nothing else.
ghost use Rattle.std.specs.Prelude.{◌≡◌, [], ◌∷◌, ◌++◌, map, string_bytes};
ghost use Rattle.outside_core.specs.Faults.{Never, no_faults};
ghost use Rattle.box_format.specs.Rows.{second_box};
ghost use Rattle.command_words.specs.Rows.{encode_with, line};
ghost use Rattle.lepton_run.specs.FileRows.{least_file};
ghost use Rattle.run_examples.specs.Expected.{held_by, TakesRest};

use lepton_run::run;
use outside_core::{Compare, Failed, NeverSource, OpenGate, Sink};
use std::alloc::Global;
use std::marker::Model;
use std::process::Abort;
use std::sync::Wait;
use std::thread::Threads;

// The most bytes that a call of the sink accepts.
const PIECE: usize = 7;

/// A sink that takes one text and nothing else. It compares nothing: that a piece is the next one is what `write`
/// requires, so who calls it must prove that.
#[derive(Drop)]
struct Expecting<'a> {
    text: &'a [u8],
    written: usize,
}

impl<'a> Model for Expecting<'a> {
    ghost use Rattle.std.specs.Prelude.{◌≤◌, length};
    ghost use Rattle.run_examples.specs.Expected.{Expected};

    ghost Value = { Expected };

    ghost view = { λ s. record { text = s.text.now; written = s.written } };

    ghost invariant = { λ s. s.written ≤ length s.text.now };
}

impl<'a> Expecting<'a> {
    fn new(text: &'a [u8]) -> Self
        ensures { result ≡ record { text = text.now; written = 0 } }
    {
        Expecting { text, written: 0 }
    }

    // Whether all of the text was written.
    fn is_whole(&self) -> bool {
        self.written == self.text.len()
    }
}

impl<'a> Sink for Expecting<'a> {
    ghost held = { held_by };

    ghost faults = { no_faults };

    ghost full = { Never };

    ghost takes = { TakesRest };

    fn write(&mut self, bytes: &[u8]) -> Result<usize, Failed> {
        let taken = bytes.len().min(PIECE);
        self.written += taken;
        Ok(taken)
    }
}

// The least file.
const FILE: [u8; 72] = [
    0xff, 0xd8, 0xff, 0xc0, 0, 11, 8, 0, 8, 0, 8, 1, 1, 0x11, 0, //
    0xff, 0xc4, 0, 20, 0x00, 1, 0, 0, 0, 0, 0, 0, 0, 0, 0, 0, 0, 0, 0, 0, 0, 0, //
    0xff, 0xc4, 0, 20, 0x10, 1, 0, 0, 0, 0, 0, 0, 0, 0, 0, 0, 0, 0, 0, 0, 0, 0, //
    0xff, 0xda, 0, 8, 1, 1, 0x00, 0, 63, 0, //
    0x3f, 0xff, 0xd9,
];

fn file_bytes() -> [u8; 72]
    ensures { result ≡ least_file }
{
    FILE
}

// Its container.
const CONTAINER: [u8; 115] = [
    0x4c, 0x50, 0x53, 0x47, 2, 1, 1, 0, 0, 0, 69, 0, 0, 0, 2, 0, 0, 0, 0, //
    0, 0, 0, 0, 0, 0, 0, 0, 0, 0, 0, 0, 0, 0, 0, 0, 0, 0, 0, 0, 0, 3, //
    0xff, 0xd8, 0xff, 0xc0, 0, 11, 8, 0, 8, 0, 8, 1, 1, 0x11, 0, //
    0xff, 0xc4, 0, 20, 0x00, 1, 0, 0, 0, 0, 0, 0, 0, 0, 0, 0, 0, 0, 0, 0, 0, 0, //
    0xff, 0xc4, 0, 20, 0x10, 1, 0, 0, 0, 0, 0, 0, 0, 0, 0, 0, 0, 0, 0, 0, 0, 0, //
    0xff, 0xda, 0, 8, 1, 1, 0x00, 0, 63, 0, //
    0xff, 0xd9, 0, 0, 0,
];

fn container_bytes() -> [u8; 115]
    ensures { result ≡ second_box }
{
    CONTAINER
}

// The arguments `lepton encode`.
fn arguments(rt: &impl Abort, alloc: Global) -> Vec<String>
    ensures { map string_bytes result.items ≡ line (encode_with []) }
{
    let mut words = Vec::new(alloc);
    push(rt, alloc, &mut words, "lepton");
    push(rt, alloc, &mut words, "encode");
    words
}

fn push(rt: &impl Abort, alloc: Global, words: &mut Vec<String>, word: &str)
    ensures { map string_bytes words.new.items
        ≡ map string_bytes words.old.items ++ word.now ∷ [] }
{
    let word = String::from_str(alloc, word).expect(rt, "memory");
    words.push(word).expect(rt, "memory");
}

// Whether all of the container is written into a sink that takes nothing else.
fn is_encoded<R: Threads + Wait + Sync>(
    rt: &R,
    alloc: Global,
    words: &[String],
    file: &[u8],
    container: &[u8],
) -> bool
    requires words { map string_bytes words.now ≡ line (encode_with []) }
    requires file { file.now ≡ least_file }
    requires container { container.now ≡ second_box }
{
    let mut source = NeverSource::new(file);
    let mut sink = Expecting::new(container);
    let mut note = Compare::new(&[]);
    let ending = run(
        rt,
        alloc,
        words,
        &mut source,
        &mut sink,
        &mut note,
        &OpenGate,
    );
    ending.status() == 0 && sink.is_whole()
}

#[test]
fn nothing_but_the_container_is_written(rt: HostRuntime) {
    let words = arguments(&rt, rt.alloc());
    let words = words.as_slice();
    let file = file_bytes();
    let file = file.as_slice();
    let container = container_bytes();
    let container = container.as_slice();
    assert!(rt; is_encoded(&rt, rt.alloc(), words, file, container));
}
