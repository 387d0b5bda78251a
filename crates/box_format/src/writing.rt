// From the parts of scans to the bytes of their container.
ghost use Rattle.std.specs.Prelude.{◌≡◌, ◌-◌, ◌^◌, ◌<◌, ◌≤◌, false, min, ◌∷◌, [], ◌++◌, length, map, flat_map, option_map, IfOk, IfSome, OnOk, Some, if◌then◌else◌};
ghost use Rattle.std.specs.List.{AllByRecursion};
ghost use Rattle.byteorder.specs.Endian.{big_bytes};
ghost use Rattle.handover.specs.HandoverBytes.{handover_bytes};
ghost use Rattle.scan_spec.specs.Pads.{pads_given};
ghost use Rattle.box_format.specs.Versions.{layout_of};
ghost use Rattle.box_format.specs.Parts.{chunk_bytes, list_bytes, magic, pad_byte, place_bytes, records};
ghost use Rattle.box_format.specs.Containers.{container_bytes, scan_fields, scan_header, scan_streams, trailer_of};
ghost use Rattle.box_format.specs.Given.{AreGiven, CanGive, all_given, parts_given, scan_room, scans_room};
ghost use Rattle.box_format.specs.Single.{IsBox, box_bytes};
ghost use Rattle.box_format.specs.declared.parts.Parts.{Parts as PartsSeen};
ghost use Rattle.jpeg_marker.specs.Plans.{PlanFields};

use crate::checks::MAGIC;
use crate::chunk::Chunk;
use crate::parts::Parts;
use crate::version::Version;
use allocation::{NoMemory, extend_from_slice, push, with_capacity};
use handover::Handover;
use scan_spec::Pads;
use std::alloc::Global;
use std::slice;

/// The most room, in bytes, that a container is given before its first byte: 64 GiB. A longer one grows.
pub(crate) const MOST_ROOM: usize = 1 << 36;

/// Writes the container of these scans in a version. They must be those of a container: their checks pass. The one
/// error is out of memory.
#[inline(never)]
pub fn write_container(
    alloc: Global,
    version: Version,
    scans: &[Parts],
) -> Result<Vec<u8>, NoMemory>
    requires { AreGiven version scans.now }
    ensures { IfOk result (λ made. made.items ≡ container_bytes version (all_given scans.now)) }
{
    let mut bytes = with_capacity(alloc, room(version, scans).min(MOST_ROOM))?;
    put_front(&mut bytes, version, scans)?;
    put_all_streams(&mut bytes, scans)?;
    Ok(bytes)
}

/// Writes the container of one scan, in the version that its parts say.
pub fn write_box(alloc: Global, parts: &Parts) -> Result<Vec<u8>, NoMemory>
    requires one { (layout_of parts.now.version).several ≡ false }
    requires parts { (plan : PlanFields) × IsBox plan (parts_given parts.now) }
    ensures { IfOk result (λ made. made.items ≡ box_bytes (parts_given parts.now)) }
{
    write_container(alloc, parts.version, slice::from_ref(parts))
}

/// Writes all of the container but the streams, which follow in their order.
#[inline(never)]
pub fn write_front(alloc: Global, version: Version, scans: &[Parts]) -> Result<Vec<u8>, NoMemory>
    requires { AreGiven version scans.now }
    ensures { IfOk result (λ front. front.items ++ flat_map scan_streams (all_given scans.now)
        ≡ container_bytes version (all_given scans.now)) }
{
    let mut bytes = Vec::new(alloc);
    put_front(&mut bytes, version, scans)?;
    Ok(bytes)
}

// Appends the same.
fn put_front(bytes: &mut Vec<u8>, version: Version, scans: &[Parts]) -> Result<(), NoMemory>
    requires given { AreGiven version scans.now }
    requires none { bytes.old.items ≡ [] }
    ensures { OnOk result (bytes.new.items ++ flat_map scan_streams (all_given scans.now)
        ≡ container_bytes version (all_given scans.now)) }
{
    let trailer = last_trailer(version, scans);
    put_start(bytes, version, scans.len() as u8, trailer.len() as u32)?;
    put_all_fields(bytes, scans)?;
    put_headers(bytes, scans)?;
    extend_from_slice(bytes, trailer)?;
    Ok(())
}

// How many bytes the container has, or the most that is counted.
fn room(version: Version, scans: &[Parts]) -> usize
    ensures { result ≡ min (2 ^ 64 - 1) (scans_room version (all_given scans.now)) }
{
    let mut room = version.layout().first;
    for scan in scans {
        room = room.saturating_add(scan_room(scan));
    }
    room
}

// How many bytes of it are a scan's, or the most that is counted.
fn scan_room(scan: &Parts) -> usize
    ensures { result ≡ min (2 ^ 64 - 1) (scan_room (parts_given scan.now)) }
{
    let layout = scan.version.layout();
    let mut room = layout
        .fields
        .saturating_add(list_of(&scan.pad).len())
        .saturating_add(scan.header.len())
        .saturating_add(scan.trailer.len());
    for stream in scan.streams {
        room = room.saturating_add(layout.room.saturating_add(stream.len()));
    }
    room
}

// The trailer, which is the last scan's.
fn last_trailer<'a>(version: Version, scans: &[Parts<'a>]) -> &'a [u8]
    requires { AreGiven version scans.now }
    ensures { result.now ≡ trailer_of (all_given scans.now) }
{
    match scans.last() {
        Some(scan) => scan.trailer,
        None => &[],
    }
}

/// What comes before the fields of the first scan.
pub(crate) fn put_start(
    bytes: &mut Vec<u8>,
    version: Version,
    scans: u8,
    trailer: u32,
) -> Result<(), NoMemory>
    ensures { OnOk result (bytes.new.items ≡ bytes.old.items ++ (magic ++ (layout_of version).byte
        ∷ (if (layout_of version).several then scans ∷ big_bytes 4 trailer else []))) }
{
    extend_from_slice(bytes, &MAGIC)?;
    push(bytes, version.layout().byte)?;
    if version.layout().several {
        put_scans(bytes, scans, trailer)
    } else {
        Ok(())
    }
}

// How many scans there are, and the length of the trailer.
fn put_scans(bytes: &mut Vec<u8>, scans: u8, trailer: u32) -> Result<(), NoMemory>
    ensures { OnOk result (bytes.new.items ≡ bytes.old.items ++ (scans ∷ big_bytes 4 trailer)) }
{
    push(bytes, scans)?;
    extend_from_slice(bytes, &trailer.to_be_bytes())
}

// The fields of each scan.
fn put_all_fields(bytes: &mut Vec<u8>, scans: &[Parts]) -> Result<(), NoMemory>
    requires { AllByRecursion (λ (p : PartsSeen). CanGive (parts_given p)) scans.now }
    ensures { OnOk result (bytes.new.items
        ≡ bytes.old.items ++ flat_map scan_fields (all_given scans.now)) }
{
    for scan in scans {
        put_fields(bytes, scan)?;
    }
    Ok(())
}

// A scan's fields.
fn put_fields(bytes: &mut Vec<u8>, scan: &Parts) -> Result<(), NoMemory>
    requires { CanGive (parts_given scan.now) }
    ensures { OnOk result (bytes.new.items
        ≡ bytes.old.items ++ scan_fields (parts_given scan.now)) }
{
    let list = list_of(&scan.pad);
    push(bytes, pad_byte(&scan.pad))?;
    push(bytes, scan.handovers.len() as u8)?;
    put_lengths(
        bytes,
        scan.version,
        scan.header.len() as u32,
        scan.trailer.len() as u32,
        list.len() as u32,
    )?;
    put_chunk(bytes, scan.chunk)?;
    put_place(bytes, scan.places, scan.handovers.len())?;
    put_records(bytes, scan)
}

/// The lengths of header, trailer and pad list, as far as a scan's fields have them.
pub(crate) fn put_lengths(
    bytes: &mut Vec<u8>,
    version: Version,
    header: u32,
    trailer: u32,
    list: u32,
) -> Result<(), NoMemory>
    ensures { OnOk result (bytes.new.items ≡ bytes.old.items ++ (big_bytes 4 header
        ++ (if (layout_of version).several then [] else big_bytes 4 trailer)
        ++ (if (layout_of version).listed then big_bytes 4 list else []))) }
{
    extend_from_slice(bytes, &header.to_be_bytes())?;
    put_length_if(bytes, !version.layout().several, trailer)?;
    put_length_if(bytes, version.layout().listed, list)
}

// A length, if it has a field.
fn put_length_if(bytes: &mut Vec<u8>, there: bool, length: u32) -> Result<(), NoMemory>
    ensures { OnOk result (bytes.new.items
        ≡ bytes.old.items ++ (if there then big_bytes 4 length else [])) }
{
    if there {
        extend_from_slice(bytes, &length.to_be_bytes())
    } else {
        Ok(())
    }
}

/// The byte of pad bits.
pub(crate) fn pad_byte(pads: &Pads) -> u8
    ensures { result ≡ pad_byte (pads_given pads.now) }
{
    match *pads {
        Pads::All(false) => 0,
        Pads::All(true) => 1,
        Pads::Each(_) => 2,
    }
}

/// The pad list, if there is one.
pub(crate) fn list_of<'a>(pads: &Pads<'a>) -> &'a [u8]
    ensures { result.now ≡ list_bytes (pads_given pads.now) }
{
    match *pads {
        Pads::All(_) => &[],
        Pads::Each(list) => list,
    }
}

// The fields of a chunk, if there is one.
fn put_chunk(bytes: &mut Vec<u8>, chunk: Option<Chunk>) -> Result<(), NoMemory>
    ensures { OnOk result (bytes.new.items ≡ bytes.old.items ++ chunk_bytes chunk) }
{
    match chunk {
        Some(chunk) => put_chunk_fields(bytes, &chunk),
        None => Ok(()),
    }
}

// The fields of a chunk.
fn put_chunk_fields(bytes: &mut Vec<u8>, chunk: &Chunk) -> Result<(), NoMemory>
    ensures { OnOk result (bytes.new.items ≡ bytes.old.items ++ chunk_bytes (Some chunk.now)) }
{
    extend_from_slice(bytes, &chunk.place.to_be_bytes())?;
    extend_from_slice(bytes, &chunk.length.to_be_bytes())?;
    extend_from_slice(bytes, &chunk.skip.to_be_bytes())?;
    extend_from_slice(bytes, &chunk.from.to_be_bytes())?;
    extend_from_slice(bytes, &chunk.to.to_be_bytes())?;
    Ok(())
}

/// One of the places, if they are kept.
pub(crate) fn put_place(
    bytes: &mut Vec<u8>,
    places: Option<&[u64]>,
    i: usize,
) -> Result<(), NoMemory>
    requires { IfSome places (λ all. i < length all.now) }
    ensures { OnOk result (bytes.new.items
        ≡ bytes.old.items ++ place_bytes (option_map (λ all. all.now) places.entry) i) }
{
    match places {
        Some(places) => extend_from_slice(bytes, &places[i].to_be_bytes()),
        None => Ok(()),
    }
}

// A record for each segment.
fn put_records(bytes: &mut Vec<u8>, parts: &Parts) -> Result<(), NoMemory>
    requires streams { length parts.now.handovers.now ≡ length parts.now.streams.now }
    requires places { IfSome (parts_given parts.now).places
        (λ places. length parts.now.handovers.now ≤ length places) }
    ensures { OnOk result (bytes.new.items
        ≡ bytes.old.items ++ records (parts_given parts.now).places 0 parts.now.handovers.now
        (map (λ v. v.items) parts.now.streams.now)) }
{
    for (i, handover) in parts.handovers.iter().enumerate() {
        put_record(bytes, handover, parts.streams[i].len() as u64)?;
        put_place(bytes, parts.places, i)?;
    }
    Ok(())
}

/// A segment's handover, and the length of its stream.
pub(crate) fn put_record(
    bytes: &mut Vec<u8>,
    handover: &Handover,
    stream: u64,
) -> Result<(), NoMemory>
    ensures { OnOk result (bytes.new.items
        ≡ bytes.old.items ++ (handover_bytes handover.now ++ big_bytes 8 stream)) }
{
    extend_from_slice(bytes, &handover.to_bytes())?;
    extend_from_slice(bytes, &stream.to_be_bytes())?;
    Ok(())
}

// The pad list and the header of each scan.
fn put_headers(bytes: &mut Vec<u8>, scans: &[Parts]) -> Result<(), NoMemory>
    ensures { OnOk result (bytes.new.items
        ≡ bytes.old.items ++ flat_map scan_header (all_given scans.now)) }
{
    for scan in scans {
        put_header(bytes, scan)?;
    }
    Ok(())
}

// A scan's pad list and its header.
fn put_header(bytes: &mut Vec<u8>, scan: &Parts) -> Result<(), NoMemory>
    ensures { OnOk result (bytes.new.items
        ≡ bytes.old.items ++ scan_header (parts_given scan.now)) }
{
    extend_from_slice(bytes, list_of(&scan.pad))?;
    extend_from_slice(bytes, scan.header)
}

// The streams of each scan.
fn put_all_streams(bytes: &mut Vec<u8>, scans: &[Parts]) -> Result<(), NoMemory>
    ensures { OnOk result (bytes.new.items
        ≡ bytes.old.items ++ flat_map scan_streams (all_given scans.now)) }
{
    for scan in scans {
        put_streams(bytes, scan.streams)?;
    }
    Ok(())
}

// The streams of a scan, one after another.
fn put_streams(bytes: &mut Vec<u8>, streams: &[Vec<u8>]) -> Result<(), NoMemory>
    ensures { OnOk result (bytes.new.items
        ≡ bytes.old.items ++ flat_map (λ stream. stream) (map (λ v. v.items) streams.now)) }
{
    for stream in streams {
        extend_from_slice(bytes, stream)?;
    }
    Ok(())
}
