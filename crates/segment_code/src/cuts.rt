// Which MCUs are a segment's: of a file, or of a container, which may have a chunk.
ghost use Rattle.std.specs.Prelude.{◌≡◌, ◌+◌, ◌*◌, ◌<◌, ◌≤◌, min};
ghost use Rattle.cut_spec.specs.Cuts.{first_mcu, row_of};
ghost use Rattle.box_format.specs.Parts.{box_cut, box_rows};

use box_format::{Chunk, rows_of};
use jpeg_marker::Plan;

/// How many segments there are of those that are asked for: no more than rows of MCUs.
pub(crate) fn segment_count(plan: &Plan, segments: u32) -> u32
    ensures { result ≡ min segments plan.now.down }
{
    plan.down().min(segments)
}

/// The row of MCUs that one of `count` segments of a file, or of a chunk's rows of it, starts with. The first segment
/// has number 0; for number `count` it is the row after the last segment.
pub fn row_of(plan: &Plan, chunk: Option<Chunk>, count: u32, segment: u32) -> u32
    requires order { (box_rows plan.now chunk).from ≤ (box_rows plan.now chunk).to }
    requires grid { (box_rows plan.now chunk).to ≤ plan.now.down }
    requires some { 0 < count }
    requires within { segment ≤ count }
    ensures value { result ≡ row_of (box_cut plan.now chunk count) segment }
    ensures within { result ≤ plan.now.down }
{
    let (from, to) = rows_of(plan, chunk);
    let rows = u64::from(segment) * u64::from(to - from);
    from + (rows / u64::from(count)) as u32
}

/// How many MCUs one of `count` segments has.
pub(crate) fn mcus_in(plan: &Plan, chunk: Option<Chunk>, count: u32, segment: u32) -> u32
    requires order { (box_rows plan.now chunk).from ≤ (box_rows plan.now chunk).to }
    requires grid { (box_rows plan.now chunk).to ≤ plan.now.down }
    requires within { segment < count }
    ensures value { first_mcu (box_cut plan.now chunk count) segment + result
        ≡ first_mcu (box_cut plan.now chunk count) (segment + 1) }
    ensures within { first_mcu (box_cut plan.now chunk count) segment + result
        ≤ plan.now.across * plan.now.down }
{
    // What bounds the product.
    let _most = plan.mcus();
    let from = row_of(plan, chunk, count, segment);
    let to = row_of(plan, chunk, count, segment + 1);
    plan.across() * (to - from)
}
