// What holds of all segments of scans, and the definitions computed on worked ones.
ghost use Rattle.cut_spec.specs.Seams.{EachIsItsSlice, JoinedAreTheScan, RowsAreCuts, EachHasRows, HandoverIsSpot, SpotsAreBegun};
ghost use Rattle.cut_spec.specs.HandoverLaws.{FirstAreRead, SegmentIsRead};
ghost use Rattle.cut_spec.specs.SegmentRows.{a_segment_without_a_byte, one_byte_across_four_segments, segments_have_rows, restart_on_the_seam};

/// A segment that starts from what the MCUs before it hand over puts its slice of the scan, and segments joined are the
/// scan, byte for byte. A segment may have no byte.
pub fn segments_joined_are_the_scan()
    ensures slices { EachIsItsSlice }
    ensures joined { JoinedAreTheScan }
    ensures rows { RowsAreCuts }
    ensures each_has_rows { EachHasRows }
{}

/// A handover determines a writer's spot, and the byte that it has is never whole.
pub fn handovers_are_spots()
    ensures spot { HandoverIsSpot }
    ensures begun { SpotsAreBegun }
{}

/// A segment is read from what the MCUs before it hand over, and what it hands over is what a reader of the whole scan
/// finds there.
pub fn segments_are_read()
    ensures first { FirstAreRead }
    ensures segment { SegmentIsRead }
{}

/// The definitions computed on worked segments.
pub fn rows_of_segments()
    ensures byteless { a_segment_without_a_byte }
    ensures across { one_byte_across_four_segments }
    ensures rows { segments_have_rows }
    ensures restart { restart_on_the_seam }
{}
