// The checks on bytes that may be a container, but for those on the headers.
ghost use Rattle.std.specs.Prelude.{◌≡◌, ◌+◌, ◌^◌, ◌≤◌, ◌<◌, ◌&&◌, nat_lt, not, true, length, take, slice_index, bytes_eq, IfSome};
ghost use Rattle.std.specs.Bool.{then_some};
ghost use Rattle.std.specs.List.{list_any};
ghost use Rattle.scan_spec.specs.FileParts.{is_last};
ghost use Rattle.scan_spec.specs.Slots.{shape_of};
ghost use Rattle.box_format.specs.Parts.{magic, bad_start, box_cut, header_part, are_rising};
ghost use Rattle.box_format.specs.Versions.{layout_of, is_version, fewest_scans, most_scans, most_segments};
ghost use Rattle.box_format.specs.Fields.{scans_in, segments_at, record_place, scan_raw, raws_as, named_end};
ghost use Rattle.box_format.specs.Checks.{early_fault, late_fault, is_cut, are_complete, some_are_wrong, segments_of, scan_fault, scans_fault, are_wrong, is_bad_chunk, are_bad_places};
ghost use Rattle.box_format.specs.Whole.{IsUncut, are_not_all, record_fault, listed_at};
ghost use Rattle.box_format.specs.declared.refusal.BoxRefusal.TheVariants.{BoxLong};

use crate::chunk::{Chunk, rows_of};
use crate::fields::{
    byte_in, chunk_at, end_at, fields_place, header_length, named_end, place_at, scans_in,
    segments_at,
};
use crate::pad_lists::is_bad_pad;
use crate::refusal::BoxRefusal;
use crate::slices::{header_at, list_at, records_at, trailer_at};
use crate::starts::first_bad_segment;
use crate::version::Version;
use jpeg_marker::Plan;

/// The bytes that a container begins with.
pub(crate) const MAGIC: [u8; 4] = [0x4c, 0x50, 0x53, 0x47];

/// The first check before the headers that fails, where these versions are read and the bytes are laid out as in one.
#[tactic(auto, unfolding(crate::specs::Checks::early_fault))]
pub(crate) fn early_fault(
    versions: &[Version],
    version: Version,
    bytes: &[u8],
) -> Option<BoxRefusal>
    ensures { result ≡ early_fault versions.now (layout_of version) bytes.now }
{
    if !has_magic(bytes) {
        Some(BoxRefusal::BoxMagic)
    } else if has_other_version(bytes, versions) {
        Some(BoxRefusal::BoxVersion)
    } else if is_cut(version, bytes) {
        Some(BoxRefusal::BoxCut)
    } else {
        None
    }
}

/// Whether the bytes begin with `LPSG`.
pub(crate) fn has_magic(bytes: &[u8]) -> bool
    ensures { result ≡ bytes_eq (take 4 bytes.now) magic }
{
    bytes.starts_with(&MAGIC)
}

// Whether the byte of the version is there, and says none.
fn has_other_version(bytes: &[u8], versions: &[Version]) -> bool
    ensures { result
        ≡ (nat_lt 4 (length bytes.now) && not (is_version versions.now (slice_index bytes.now 4))) }
{
    bytes.len() > 4 && !is_version(versions, byte_in(bytes, 4))
}

// Whether a byte says one of these versions.
fn is_version(versions: &[Version], byte: u8) -> bool
    ensures { result ≡ is_version versions.now byte }
{
    versions.iter().any(|version| version.layout().byte == byte)
}

// Whether the bytes end within the fields of a scan, or before the end that the fields name.
fn is_cut(version: Version, bytes: &[u8]) -> bool
    ensures { result ≡ is_cut (layout_of version) bytes.now }
{
    bytes.len() < fields_place(version, bytes, scans_in(version, bytes))
        || (bytes.len() as u128) < named_end(version, bytes)
}

/// The first check after the headers that fails, by the plans of the first four, on bytes laid out as in a version.
#[inline(never)]
pub(crate) fn late_fault(version: Version, bytes: &[u8], plans: &[Plan]) -> Option<BoxRefusal>
    requires whole { IsUncut (layout_of version) bytes.now }
    requires four { length plans.now ≡ 4 }
    ensures { result ≡ late_fault version
        (take (scans_in (layout_of version) bytes.now) plans.now) bytes.now }
{
    let scans = scans_in(version, bytes);
    let (fewest, most) = (version.fewest_scans(), version.most_scans());
    if scans < fewest || scans > most {
        return Some(BoxRefusal::BoxSegments);
    }
    scans_or_end_fault(version, bytes, &plans[..usize::from(scans)])
}

// The same of as many scans as the version has, by their plans.
fn scans_or_end_fault(version: Version, bytes: &[u8], plans: &[Plan]) -> Option<BoxRefusal>
    requires whole { IsUncut (layout_of version) bytes.now }
    requires count { length plans.now ≡ scans_in (layout_of version) bytes.now }
    requires some { fewest_scans (layout_of version) ≤ length plans.now }
    requires few { length plans.now ≤ most_scans (layout_of version) }
    ensures { result ≡ late_fault version plans.now bytes.now }
{
    if are_wrong_scans(version, bytes, plans) {
        return Some(BoxRefusal::BoxSegments);
    }
    match scans_fault(version, bytes, plans) {
        Some(refusal) => Some(refusal),
        None => after_end(version, bytes),
    }
}

// Whether these aren't all scans of a file, or can't have their numbers of segments.
fn are_wrong_scans(version: Version, bytes: &[u8], plans: &[Plan]) -> bool
    requires whole { IsUncut (layout_of version) bytes.now }
    requires count { length plans.now ≡ scans_in (layout_of version) bytes.now }
    ensures { result ≡ are_not_all (layout_of version).most plans.now (raws_as version bytes.now) }
{
    !are_complete(plans)
        || some_are_wrong(version, bytes, plans)
        || segments_in(version, bytes) > usize::from(version.layout().most)
}

// Whether the last of these scans is the last one of a file, and no other is.
fn are_complete(plans: &[Plan]) -> bool
    ensures { result ≡ are_complete plans.now }
{
    match plans.split_last() {
        Some((last, before)) => last.is_last() && !is_any_last(before),
        None => false,
    }
}

// Whether one of these scans is the last one of a file.
fn is_any_last(plans: &[Plan]) -> bool
    ensures { result ≡ list_any is_last plans.now }
{
    plans.iter().any(|plan| plan.is_last())
}

// Whether one of the scans can't have its number of segments.
fn some_are_wrong(version: Version, bytes: &[u8], plans: &[Plan]) -> bool
    requires whole { IsUncut (layout_of version) bytes.now }
    requires count { length plans.now ≡ scans_in (layout_of version) bytes.now }
    ensures { result
        ≡ some_are_wrong (layout_of version).most plans.now (raws_as version bytes.now) }
{
    for scan in 0..scans_in(version, bytes) {
        if is_wrong(version, bytes, &plans[usize::from(scan)], scan) {
            return true;
        }
    }
    false
}

// Whether this scan can't have its number of segments.
fn is_wrong(version: Version, bytes: &[u8], plan: &Plan, scan: u8) -> bool
    requires whole { IsUncut (layout_of version) bytes.now }
    requires scan { scan < scans_in (layout_of version) bytes.now }
    ensures { result ≡ are_wrong (layout_of version).most
        (box_cut plan.now (scan_raw version bytes.now scan).chunk
        (length (scan_raw version bytes.now scan).handovers)) }
{
    let fields = fields_place(version, bytes, scan);
    let chunk = chunk_at(version, bytes, fields);
    are_wrong(plan, chunk, version, segments_at(bytes, fields))
}

// Whether a scan can't have this number of segments in a container of this version: it is more than the version has or
// than rows, or 0 though there are rows.
fn are_wrong(plan: &Plan, chunk: Option<Chunk>, version: Version, segments: u8) -> bool
    ensures { result ≡ are_wrong (layout_of version).most (box_cut plan.now chunk segments) }
{
    let (from, to) = rows_of(plan, chunk);
    segments > version.layout().most
        || (to >= from && u32::from(segments) > to - from)
        || (to > from && segments == 0)
}

/// How many segments the fields of all scans name.
pub(crate) fn segments_in(version: Version, bytes: &[u8]) -> usize
    ensures { result ≡ segments_of (raws_as version bytes.now) }
{
    let mut count = 0;
    for scan in 0..scans_in(version, bytes) {
        count += usize::from(segments_at(bytes, fields_place(version, bytes, scan)));
    }
    count
}

// What fails first of the scans, in their order.
fn scans_fault(version: Version, bytes: &[u8], plans: &[Plan]) -> Option<BoxRefusal>
    requires whole { IsUncut (layout_of version) bytes.now }
    requires count { length plans.now ≡ scans_in (layout_of version) bytes.now }
    requires few { segments_of (raws_as version bytes.now) ≤ most_segments }
    ensures { result ≡ scans_fault 0 plans.now (raws_as version bytes.now) }
{
    let mut first = 0;
    for scan in 0..scans_in(version, bytes) {
        if let Some(refusal) = scan_fault(version, bytes, &plans[usize::from(scan)], scan, first) {
            return Some(refusal);
        }
        first += segments_at(bytes, fields_place(version, bytes, scan));
    }
    None
}

// What fails first of a scan: its chunk, its pad bits, what one of its segments starts from, or its places. The first
// segment has the number `first`.
fn scan_fault(
    version: Version,
    bytes: &[u8],
    plan: &Plan,
    scan: u8,
    first: u8,
) -> Option<BoxRefusal>
    requires whole { IsUncut (layout_of version) bytes.now }
    requires scan { scan < scans_in (layout_of version) bytes.now }
    requires few { first + length (scan_raw version bytes.now scan).handovers ≤ most_segments }
    ensures { result ≡ scan_fault first plan.now (scan_raw version bytes.now scan) }
{
    let fields = fields_place(version, bytes, scan);
    let (header, trailer) = (
        header_at(version, bytes, scan),
        trailer_at(version, bytes, scan),
    );
    let listed = version.layout().listed;
    if is_bad_chunk(
        plan.down(),
        header,
        trailer,
        chunk_at(version, bytes, fields),
    ) {
        Some(BoxRefusal::BoxChunk)
    } else if is_bad_pad(
        listed,
        plan,
        byte_in(bytes, fields),
        list_at(version, bytes, scan),
    ) {
        Some(BoxRefusal::BoxPad)
    } else {
        record_fault(version, bytes, plan, scan, first)
    }
}

// What fails first of a scan's records.
fn record_fault(
    version: Version,
    bytes: &[u8],
    plan: &Plan,
    scan: u8,
    first: u8,
) -> Option<BoxRefusal>
    requires whole { IsUncut (layout_of version) bytes.now }
    requires scan { scan < scans_in (layout_of version) bytes.now }
    requires few { first + length (scan_raw version bytes.now scan).handovers ≤ most_segments }
    ensures { result ≡ record_fault first plan.now (scan_raw version bytes.now scan) }
{
    match bad_segment(version, bytes, plan, scan) {
        Some(segment) => Some(BoxRefusal::HandoverBad {
            segment: first + segment,
        }),
        None if are_bad_places(version, bytes, scan) => Some(BoxRefusal::BoxPlaces),
        None => None,
    }
}

// Whether a chunk can't be one of a grid with this number of rows, with these parts.
fn is_bad_chunk(down: u32, header: &[u8], trailer: &[u8], chunk: Option<Chunk>) -> bool
    ensures { result ≡ is_bad_chunk down header.now trailer.now chunk }
{
    let Some(chunk) = chunk else {
        return false;
    };
    let parts = u128::from(header_part(chunk, header)) + trailer.len() as u128;
    let length = u128::from(chunk.length);
    chunk.to < chunk.from
        || chunk.to > down
        || parts > length
        || (chunk.from == chunk.to && (parts != length || chunk.skip != 0))
}

// How many bytes of a header lie in a chunk. Its end doesn't overflow.
fn header_part(chunk: Chunk, header: &[u8]) -> u64
    ensures { result ≡ length (header_part chunk header.now) }
{
    let end = chunk.place.saturating_add(chunk.length);
    end.min(header.len() as u64).saturating_sub(chunk.place)
}

// The first segment of a scan that can't start from its record.
fn bad_segment(version: Version, bytes: &[u8], plan: &Plan, scan: u8) -> Option<u8>
    requires whole { IsUncut (layout_of version) bytes.now }
    requires scan { scan < scans_in (layout_of version) bytes.now }
    ensures value { result ≡ bad_start (shape_of plan.now)
        (box_cut plan.now (scan_raw version bytes.now scan).chunk
        (length (scan_raw version bytes.now scan).handovers)) 0
        (scan_raw version bytes.now scan).handovers }
    ensures within { IfSome result
        (λ segment. segment < length (scan_raw version bytes.now scan).handovers) }
{
    let fields = fields_place(version, bytes, scan);
    first_bad_segment(
        plan,
        chunk_at(version, bytes, fields),
        version,
        segments_at(bytes, fields),
        records_at(version, bytes, scan),
    )
}

// Whether the places don't begin where the header ends, or one is below the one before.
fn are_bad_places(version: Version, bytes: &[u8], scan: u8) -> bool
    requires whole { IsUncut (layout_of version) bytes.now }
    requires scan { scan < scans_in (layout_of version) bytes.now }
    ensures { result ≡ are_bad_places (length (scan_raw version bytes.now scan).header)
        (scan_raw version bytes.now scan).places }
{
    if !version.layout().placed {
        return false;
    }
    let fields = fields_place(version, bytes, scan);
    place_in(version, bytes, fields, 0) != u64::from(header_length(bytes, fields))
        || !are_rising(version, bytes, fields)
}

// A place, in a version that has places: of a segment's first byte, and after those of all segments of the scan's end.
fn place_in(version: Version, bytes: &[u8], fields: usize, segment: u8) -> u64
    requires placed { (layout_of version).placed ≡ true }
    requires small { fields < 2 ^ 32 }
    requires there { record_place (layout_of version) fields (segments_at bytes.now fields)
        ≤ length bytes.now }
    requires segment { segment ≤ segments_at bytes.now fields }
    ensures { result ≡ slice_index (listed_at (layout_of version) bytes.now fields) segment }
{
    let layout = version.layout();
    if segment < segments_at(bytes, fields) {
        place_at(
            bytes,
            fields + layout.fields + layout.room * usize::from(segment),
        )
    } else {
        end_at(version, bytes, fields)
    }
}

// Whether no place is below the one before.
fn are_rising(version: Version, bytes: &[u8], fields: usize) -> bool
    requires placed { (layout_of version).placed ≡ true }
    requires small { fields < 2 ^ 32 }
    requires there { record_place (layout_of version) fields (segments_at bytes.now fields)
        ≤ length bytes.now }
    ensures { result ≡ are_rising (listed_at (layout_of version) bytes.now fields) }
{
    let segments = segments_at(bytes, fields);
    let mut place = place_in(version, bytes, fields, 0);
    for i in 0..segments {
        let next = place_in(version, bytes, fields, i + 1);
        if next < place {
            return false;
        }
        place = next;
    }
    true
}

// That bytes follow the last stream, if they do.
fn after_end(version: Version, bytes: &[u8]) -> Option<BoxRefusal>
    requires { IsUncut (layout_of version) bytes.now }
    ensures { result ≡ then_some
        (nat_lt (named_end (layout_of version) bytes.now) (length bytes.now)) BoxLong }
{
    if (bytes.len() as u128) > named_end(version, bytes) {
        Some(BoxRefusal::BoxLong)
    } else {
        None
    }
}
