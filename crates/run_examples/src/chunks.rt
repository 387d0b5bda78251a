// Chunks of a file, cut after one pass over its scan, each decoded alone.
ghost use Rattle.std.specs.Prelude.{◌<◌, ◌^◌, length};

use crate::trial::{assert_holds, comes_back};
use chunk_cut::{Alone, ChunkCutter, CutError, InThreads, cut_chunk};
use jpeg_marker::HeaderRefusal;
use outside_core::OpenGate;
use sample_jpeg::sample;
use std::alloc::Global;
use std::process::Abort;
use std::sync::Wait;
use std::thread::Threads;

// The chunks of a sample of 601 bytes and three rows come back, each as its slice, whatever their size.
#[test]
fn chunks_come_back(rt: HostRuntime) {
    let file = sample(rt.alloc(), 7, 4, 3).expect(&rt, "memory");
    for (size, count) in [(37, 17), (300, 3), (600, 2), (601, 1), (u64::MAX, 1)] {
        let holds = come_back(&rt, rt.alloc(), file.as_slice(), size, count);
        assert_holds(&rt, holds, "size", size);
    }
}

fn come_back<R: Threads + Wait + Sync + Abort>(
    rt: &R,
    alloc: Global,
    file: &[u8],
    size: u64,
    count: u64,
) -> bool {
    assert!(rt; file.len() < 1 << 32);
    assert!(rt; 0 < size);
    let Ok(cutter) = ChunkCutter::prepare(alloc, file) else {
        return false;
    };
    let mut rest = file;
    for index in 0..count {
        let (chunk, after) = rest.split_at((rest.len() as u64).min(size) as usize);
        let Ok(Some(made)) = cutter.cut(&InThreads { rt }, alloc, 2, size, index) else {
            return false;
        };
        if !comes_back(rt, alloc, made.as_slice(), chunk, 2, 4_096, &OpenGate) {
            return false;
        }
        rest = after;
    }
    rest.is_empty() && cutter.chunks(size) == count && ends(alloc, &cutter, size, count)
}

// Whether there is no chunk with this number, nor one whose place no 64 bits hold.
fn ends(alloc: Global, cutter: &ChunkCutter, size: u64, count: u64) -> bool
    requires { 0 < size }
{
    matches!(cutter.cut(&Alone, alloc, 1, size, count), Ok(None))
        && matches!(cutter.cut(&Alone, alloc, 1, u64::MAX, 2), Ok(None))
}

// A single chunk is the cutter's; bytes that are no file have no chunk at all.
#[test]
fn a_chunk_is_cut(rt: HostRuntime) {
    let file = sample(rt.alloc(), 7, 4, 3).expect(&rt, "memory");
    assert!(rt; file.len() < 1 << 32);
    assert!(rt; is_cut(&rt, rt.alloc(), file.as_slice()));
    let none = cut_chunk(&rt, rt.alloc(), &[0xff, 0xd9], 1, 9, 9);
    assert!(rt; matches!(none, Err(CutError::Header(HeaderRefusal::NotJpeg))));
    let past = cut_chunk(&rt, rt.alloc(), file.as_slice(), 1, 601, 1);
    assert!(rt; matches!(past, Err(CutError::NoChunk)));
}

fn is_cut<R: Threads + Sync>(rt: &R, alloc: Global, file: &[u8]) -> bool
    requires { length file.now < 2 ^ 32 }
{
    let Ok(cutter) = ChunkCutter::prepare(alloc, file) else {
        return false;
    };
    let Ok(Some(made)) = cutter.cut(&Alone, alloc, 3, 300, 1) else {
        return false;
    };
    match cut_chunk(rt, alloc, file, 3, 300, 1) {
        Ok(one) => one.as_slice() == made.as_slice(),
        Err(_) => false,
    }
}
