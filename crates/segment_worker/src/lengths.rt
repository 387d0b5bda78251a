// How many segments a container has, and how long they are.
ghost use Rattle.std.specs.Prelude.{◌+◌, ◌*◌, ◌≤◌, ℕ, length};
ghost use Rattle.box_format.specs.Versions.{most_segments};
ghost use Rattle.box_format.specs.Containers.{segment_count};
ghost use Rattle.segment_worker.specs.Contents.{AreShort, segment_room, stretch};
ghost use Rattle.segment_worker.specs.Emitting.{joined_in};

use box_format::FileView;

// Whatever its streams, a container has few segments, and none has more bytes than 64 bits count. This is called for
// its clauses and does no work but count.
pub(crate) fn segments_are_short(view: &FileView)
    ensures short { (first count : ℕ) → first + count ≤ segment_count view.now
        → AreShort (stretch view.now first count) }
    ensures few { segment_count view.now ≤ most_segments }
    ensures joined { (first count : ℕ) → first + count ≤ segment_count view.now
        → length (joined_in (stretch view.now first count)).bytes ≤ segment_room * most_segments }
{
    let _scans = view.scans();
    let _segments = view.segments();
}
