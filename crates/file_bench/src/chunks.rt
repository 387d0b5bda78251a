// All chunks of a file, by one reading of its scan.
use chunk_cut::{ChunkCutter, InThreads};
use std::alloc::Global;
use std::thread::Threads;

/// How many chunks of `size` bytes the file has, and how many bytes their containers have, in at most `segments`
/// segments each. `None` if the file is refused, or has 4 GiB or more, or there are no such chunks.
pub(crate) fn cut_all<R: Threads + Sync>(
    rt: &R,
    alloc: Global,
    bytes: &[u8],
    size: u64,
    segments: u8,
) -> Option<(u64, u64)> {
    if size == 0 || segments == 0 || segments > 64 || bytes.len() >= 1 << 32 {
        return None;
    }
    let cutter = ChunkCutter::prepare(alloc, bytes).ok()?;
    let chunks = cutter.chunks(size);
    let mut made: u64 = 0;
    for index in 0..chunks {
        let container = cutter
            .cut(&InThreads { rt }, alloc, segments, size, index)
            .ok()??;
        made = made.saturating_add(container.len() as u64);
    }
    Some((chunks, made))
}
