// A scan's part of a container that was read.
ghost use Rattle.std.specs.Prelude.{◌≡◌, ◌≤◌, ◌<◌, ◌^◌, length, get_or, [], true, option_map, slice_index, IfSome, IfNone, Some};
ghost use Rattle.handover.specs.Handovers.{start};
ghost use Rattle.scan_spec.specs.Pads.{is_long_for, pads_given};
ghost use Rattle.scan_spec.specs.Slots.{shape_of};
ghost use Rattle.box_format.specs.Parts.{IsScanBox, file_end, list_bytes};
ghost use Rattle.box_format.specs.Fields.{scan_raw, scans_in};
ghost use Rattle.box_format.specs.Raws.{parts_of};
ghost use Rattle.box_format.specs.Whole.{IsUncut};
ghost use Rattle.box_format.specs.Versions.{layout_of, most_segments};

use crate::chunk::Chunk;
use crate::fields::{byte_in, chunk_at, end_in, fields_place, place_at, segments_at};
use crate::records::{place_among, record_at, stream_among};
use crate::slices::{header_at, list_at, records_at, streams_at, trailer_at};
use crate::version::Version;
use handover::Handover;
use jpeg_marker::Plan;
use scan_spec::Pads;
use std::marker::Model;

/// A scan's part of a container that was read, by its parts, which it borrows: the whole container, or a scan of a
/// container of several.
///
/// Clauses see the plan of its header, and its parts.
#[derive(Drop)]
pub struct BoxView<'a> {
    plan: Plan,
    version: Version,
    chunk: Option<Chunk>,
    // The pad byte and the pad list.
    pad: u8,
    list: &'a [u8],
    header: &'a [u8],
    trailer: &'a [u8],
    segments: u8,
    // All records of the scan.
    records: &'a [u8],
    // The place of the scan's end, in a version that has places; else 0.
    end: u64,
    // All streams of the scan, one after another.
    streams: &'a [u8],
}

impl<'a> Model for BoxView<'a> {
    ghost use Rattle.box_format.specs.Seen.{seen_of, IsView};
    ghost use Rattle.box_format.specs.Parts.{BoxSeen};

    ghost Value = { BoxSeen };

    ghost view = { seen_of };

    ghost invariant = { IsView };
}

/// The view of a scan of a container with these parts.
#[inline(never)]
pub(crate) fn scan_view<'a>(version: Version, bytes: &'a [u8], plan: &Plan, scan: u8) -> BoxView<'a>
    requires whole { IsUncut (layout_of version) bytes.now }
    requires scan { scan < scans_in (layout_of version) bytes.now }
    requires is { IsScanBox plan.now (parts_of (scan_raw version bytes.now scan)) }
    ensures { result ≡ record { plan = plan.now; parts = parts_of (scan_raw version bytes.now scan) } }
{
    let fields = fields_place(version, bytes, scan);
    BoxView {
        plan: *plan,
        version,
        chunk: chunk_at(version, bytes, fields),
        pad: byte_in(bytes, fields),
        list: list_at(version, bytes, scan),
        header: header_at(version, bytes, scan),
        trailer: trailer_at(version, bytes, scan),
        segments: segments_at(bytes, fields),
        records: records_at(version, bytes, scan),
        end: end_in(version, bytes, fields),
        streams: streams_at(version, bytes, scan),
    }
}

impl<'a> BoxView<'a> {
    /// What the header says.
    pub fn plan(&self) -> &Plan
        ensures value { result.now ≡ self.now.plan }
        ensures sound { IsScanBox self.now.plan self.now.parts }
    {
        &self.plan
    }

    /// The version that it is written in.
    pub fn version(&self) -> Version
        ensures { result ≡ self.now.parts.version }
    {
        self.version
    }

    /// The chunk, if it has a chunk of a file. Its rows are rows of the header's.
    pub fn chunk(&self) -> Option<Chunk>
        ensures { result ≡ self.now.parts.chunk }
    {
        self.chunk
    }

    /// The bits that fill up the last byte of each restart interval.
    pub fn pad(&self) -> Pads<'a>
        ensures value { pads_given result ≡ self.now.parts.pads }
        ensures long { is_long_for (shape_of self.now.plan) (pads_given result) ≡ true }
        ensures fits { length (list_bytes (pads_given result)) < 2 ^ 32 }
    {
        match self.pad {
            2 => Pads::Each(self.list),
            pad => Pads::All(pad != 0),
        }
    }

    /// A place in the file, in a container that keeps them: of a segment's first byte, and after those of all segments
    /// of the scan's end.
    pub fn place(&self, segment: u8) -> Option<u64>
        requires { segment ≤ length self.now.parts.handovers }
        ensures { result ≡ option_map (λ places. slice_index places segment) self.now.parts.places }
    {
        if !self.version.layout().placed {
            None
        } else if segment < self.segments {
            Some(place_at(self.records, place_among(self.version, segment)))
        } else {
            Some(self.end)
        }
    }

    /// How many bytes the file has, in a container that keeps places: its scan's end, and its trailer. If the sum
    /// passes 64 bits, a segment of it has fewer bytes than its places say.
    pub fn file_length(&self) -> Option<u64>
        ensures some { IfSome result
            (λ n. option_map (file_end self.now.parts) self.now.parts.places ≡ Some n) }
        ensures none { IfNone result
            (IfSome self.now.parts.places (λ places. 2 ^ 64 ≤ file_end self.now.parts places)) }
    {
        let end = self.place(self.segments())?;
        end.checked_add(self.trailer().len() as u64)
    }

    /// How many segments there are, at most 16 in version 1 and 64 in the others, and at most as many as MCU rows. It
    /// is 0 only if a chunk has no row.
    pub fn segments(&self) -> u8
        ensures count { result ≡ length self.now.parts.handovers }
        ensures streams { result ≡ length self.now.parts.streams }
        ensures of_version { result ≤ (layout_of self.now.parts.version).most }
        ensures few { result ≤ most_segments }
    {
        self.segments
    }

    /// The header: the file's bytes from its first one, or from the end of the scan before, up to the scan.
    pub fn header(&self) -> &'a [u8]
        ensures bytes { result.now ≡ self.now.parts.header }
        ensures fits { length result.now < 2 ^ 32 }
    {
        self.header
    }

    /// The file's bytes after its last scan, or the chunk's part of them; of a scan before the last one, none.
    pub fn trailer(&self) -> &'a [u8]
        ensures bytes { result.now ≡ self.now.parts.trailer }
        ensures fits { length result.now < 2 ^ 32 }
    {
        self.trailer
    }

    /// What a segment starts from; the first one has number 0.
    pub fn handover(&self, segment: u8) -> Handover
        requires { segment < length self.now.parts.handovers }
        ensures { result ≡ get_or self.now.parts.handovers segment start }
    {
        let place = place_among(self.version, segment);
        match Handover::from_bytes(&record_at(self.records, place)) {
            Some(handover) => handover,
            None => Handover::start(),
        }
    }

    /// A segment's stream.
    pub fn stream(&self, segment: u8) -> &'a [u8]
        requires { segment < length self.now.parts.handovers }
        ensures { result.now ≡ get_or self.now.parts.streams segment [] }
    {
        stream_among(self.version, self.records, self.streams, segment)
    }
}
