// How many workers a container's segments are worth.
ghost use Rattle.std.specs.Prelude.{◌≡◌, ◌≤◌, ◌^◌, ◌*◌};
ghost use Rattle.box_format.specs.Containers.{segment_count};
ghost use Rattle.segment_crew.specs.Worth.{blocks_had, blocks_in, workers_of, workers_worth};

use box_format::{BoxView, FileView, rows_of};

// How many blocks are worth a worker, as many as `segment_encode` has for each lane: a photograph of 64 KiB has about
// as many. A thread for fewer costs more processor time than the command saves by the clock.
const WORTH_A_WORKER: u64 = 8_192;

/// How many workers are asked for. No more are made than there are segments.
#[derive(Clone, Copy)]
pub enum Workers {
    /// This number of them.
    Given(u8),
    /// As many as are worth their threads, and at most this number: one for each 8,192 blocks, rounded down.
    Worth(u8),
}

/// The number of workers that `workers` asks for, for `count` of a container's segments.
pub fn workers_of(view: &FileView, count: u8, workers: Workers) -> u8
    requires { count ≤ segment_count view.now }
    ensures { result ≡ workers_of view.now count workers }
{
    match workers {
        Workers::Given(given) => given,
        Workers::Worth(most) => workers_worth(view, count, most),
    }
}

// How many are worth their threads, if there may be `most`. Each segment counts for an equal share of all blocks,
// rounded down.
fn workers_worth(view: &FileView, count: u8, most: u8) -> u8
    requires { count ≤ segment_count view.now }
    ensures { result ≡ workers_worth view.now count most }
{
    let segments = u64::from(view.segments().max(1));
    let blocks = blocks_in(view) / segments * u64::from(count);
    (blocks / WORTH_A_WORKER).min(u64::from(most)) as u8
}

// How many blocks a container has.
#[inline(never)]
fn blocks_in(view: &FileView) -> u64
    ensures value { result ≡ blocks_in view.now }
    ensures few { result ≤ 4 * 2 ^ 56 }
{
    let mut blocks = 0;
    for scan in 0..view.scans() {
        blocks += blocks_had(&view.scan(scan));
    }
    blocks
}

// How many blocks it has of a scan: those of all rows of MCUs, or of the chunk's.
fn blocks_had(scan: &BoxView) -> u64
    ensures value { result ≡ blocks_had scan.now }
    ensures few { result ≤ 2 ^ 56 }
{
    let plan = scan.plan();
    let (from, to) = rows_of(plan, scan.chunk());
    u64::from(plan.blocks() / plan.down()) * u64::from(to.saturating_sub(from))
}

// How often the emitter looks again in all, so that threads have time to start.
const PATIENCE: u32 = 1_000;

/// How often the emitter looks again before it decodes a segment that no worker has claimed: not once, if it makes the
/// rounds fewer that all need for these segments. If not, it would only take the processor from a worker.
pub(crate) fn patience_of(segments: u8, workers: usize) -> u32 {
    let segments = usize::from(segments);
    if workers == 0 || segments.div_ceil(workers.saturating_add(1)) < segments.div_ceil(workers) {
        return 0;
    }
    PATIENCE
}
