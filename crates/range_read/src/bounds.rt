// Which of a container's segments have a place in a range, and what of their bytes goes into it.
ghost use Rattle.std.specs.Prelude.{◌≡◌, ◌≤◌, length};
ghost use Rattle.byte_window.specs.PartedFiles.{parts_within, window_within};
ghost use Rattle.container_spec.specs.RangeMeanings.{is_bad_range, placed_file};

use box_format::BoxView;
use byte_window::{Places, Window};

// Where a container's segments begin.
#[derive(Drop)]
struct SegmentPlaces<'a> {
    view: &'a BoxView<'a>,
}

impl<'a> Places for SegmentPlaces<'a> {
    ghost use Rattle.container_spec.specs.RangeMeanings.{placed_file};

    ghost count = { λ s. (placed_file s.view.now.plan s.view.now.parts).count };

    ghost place = { λ s. (placed_file s.view.now.plan s.view.now.parts).place };

    fn count(&self) -> u32 {
        u32::from(self.view.segments())
    }

    fn place(&self, part: u32) -> u64 {
        // Called for its clauses: a segment's number has one byte.
        let _segments = self.view.segments();
        place_of(self.view, part as u8)
    }
}

/// Whether the range from one place to before another isn't one of the file.
pub(crate) fn is_bad_range(view: &BoxView, from: u64, to: u64) -> bool
    ensures { result ≡ is_bad_range view.now.parts from to }
{
    let end = u128::from(place_of(view, view.segments())) + view.trailer().len() as u128;
    to < from || end < u128::from(to)
}

/// The segments that have a place in a range: the first one, and the one after the last; 0 and 0 if there is none.
pub(crate) fn segments_within(view: &BoxView, from: u64, to: u64) -> (u8, u8)
    ensures first { result.0
        ≡ (parts_within (placed_file view.now.plan view.now.parts) from to).from }
    ensures past { result.1
        ≡ (parts_within (placed_file view.now.plan view.now.parts) from to).to }
    ensures order { result.0 ≤ result.1 }
    ensures within { result.1 ≤ length view.now.parts.handovers }
{
    // Called for its clauses: a segment's number has one byte.
    let _segments = view.segments();
    let (first, past) = byte_window::parts_within(&SegmentPlaces { view }, from, to);
    (first as u8, past as u8)
}

/// What goes into a range of the bytes of these segments, which are those with a place in it.
pub(crate) fn window_within(view: &BoxView, segments: (u8, u8), from: u64, to: u64) -> Window
    requires first { segments.0
        ≡ (parts_within (placed_file view.now.plan view.now.parts) from to).from }
    requires past { segments.1
        ≡ (parts_within (placed_file view.now.plan view.now.parts) from to).to }
    ensures { result ≡ window_within (placed_file view.now.plan view.now.parts) from to }
{
    let segments = (u32::from(segments.0), u32::from(segments.1));
    byte_window::window_within(&SegmentPlaces { view }, segments, from, to)
}

// The place of a segment's first byte; after the last segment that of the scan's end. It is 0 if no places are kept.
pub(crate) fn place_of(view: &BoxView, segment: u8) -> u64
    requires segment { segment ≤ length view.now.parts.handovers }
    ensures { result ≡ (placed_file view.now.plan view.now.parts).place segment }
{
    match view.place(segment) {
        Some(place) => place,
        None => 0,
    }
}
