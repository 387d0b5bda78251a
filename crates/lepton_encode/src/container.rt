// From the coded scans of a file to its container.
ghost use Rattle.std.specs.Prelude.{◌≡◌, ◌++◌, map, length, get_or, flat_map, option_map, if◌then◌else◌, Some, None, [], drop, IfOk, OnOk};
ghost use Rattle.box_format.specs.Containers.{container_bytes, scan_streams};
ghost use Rattle.box_format.specs.Given.{parts_given};
ghost use Rattle.box_format.specs.Versions.{layout_of};
ghost use Rattle.lepton_encode.specs.ScansMade.{AreScansMade, AreWithin, HasParts, scan_made, scans_made, streams_in};

use crate::heads::Head;
use allocation::{NoMemory, extend_from_slice, push};
use box_format::{Parts, Version, write_front};
use segment_code::Starts;
use std::alloc::Global;

/// A scan whose segments are coded: where they start, the place in the file of each one's first byte and after them
/// that of the scan's end, and their streams.
#[derive(Drop)]
pub(crate) struct CodedScan {
    pub(crate) starts: Starts,
    pub(crate) places: Vec<u64>,
    pub(crate) streams: Vec<Vec<u8>>,
}

/// The container of these scans of a file, in a version of whole files.
#[inline(never)]
pub(crate) fn write_coded(
    alloc: Global,
    version: Version,
    bytes: &[u8],
    heads: &[Head],
    coded: Vec<CodedScan>,
) -> Result<Vec<u8>, NoMemory>
    requires within { AreWithin bytes.now heads.now coded.items }
    requires scans { AreScansMade version bytes.now heads.now coded.items }
    ensures { IfOk result (λ made. made.items
        ≡ container_bytes version (scans_made version bytes.now heads.now coded.items)) }
{
    let scans = coded.as_slice();
    let front = front_of(alloc, version, bytes, heads, scans)?;
    let streams = streams_of(alloc, coded)?;
    let made = joined_after(alloc, front, streams)?;
    Ok(made)
}

// All of the container but the streams.
#[inline(never)]
fn front_of(
    alloc: Global,
    version: Version,
    bytes: &[u8],
    heads: &[Head],
    coded: &[CodedScan],
) -> Result<Vec<u8>, NoMemory>
    requires within { AreWithin bytes.now heads.now coded.now }
    requires scans { AreScansMade version bytes.now heads.now coded.now }
    ensures { IfOk result (λ front. front.items
        ++ flat_map scan_streams (scans_made version bytes.now heads.now coded.now)
        ≡ container_bytes version (scans_made version bytes.now heads.now coded.now)) }
{
    let parts = parts_of(alloc, version, bytes, heads, coded)?;
    let parts = parts.as_slice();
    let front = write_front(alloc, version, parts)?;
    Ok(front)
}

// The parts of these scans.
#[inline(never)]
fn parts_of<'a>(
    alloc: Global,
    version: Version,
    bytes: &'a [u8],
    heads: &[Head],
    coded: &'a [CodedScan],
) -> Result<Vec<Parts<'a>>, NoMemory>
    requires { AreWithin bytes.now heads.now coded.now }
    ensures { IfOk result (λ parts.
        map parts_given parts.items ≡ scans_made version bytes.now heads.now coded.now) }
{
    let mut parts = Vec::new(alloc);
    for (i, head) in heads.iter().enumerate() {
        push(
            &mut parts,
            parts_of_scan(version, bytes, head, &coded[i], i + 1 == heads.len()),
        )?;
    }
    Ok(parts)
}

// The parts of a scan. The last one has the trailer.
fn parts_of_scan<'a>(
    version: Version,
    bytes: &'a [u8],
    head: &Head,
    coded: &'a CodedScan,
    last: bool,
) -> Parts<'a>
    requires { HasParts bytes.now head.now coded.now }
    ensures { parts_given result ≡ scan_made version bytes.now
        (if last then drop coded.now.starts.trailer bytes.now else []) head.now coded.now }
{
    let (_, from) = bytes.split_at(head.place);
    let (header, _) = from.split_at(head.plan.header_length() - head.place);
    let (_, rest) = bytes.split_at(coded.starts.trailer());
    Parts {
        version,
        chunk: None,
        places: kept_places(version, coded.places.as_slice()),
        pad: coded.starts.pad(),
        header,
        trailer: if last { rest } else { &[] },
        handovers: coded.starts.handovers(),
        streams: coded.streams.as_slice(),
    }
}

// The places, in a version that keeps them.
fn kept_places(version: Version, places: &[u64]) -> Option<&[u64]>
    ensures { option_map (λ kept. kept.now) result
        ≡ (if (layout_of version).placed then Some places.now else None) }
{
    if version.layout().placed {
        Some(places)
    } else {
        None
    }
}

// The streams of these scans.
#[inline(never)]
fn streams_of(alloc: Global, coded: Vec<CodedScan>) -> Result<Vec<Vec<u8>>, NoMemory>
    ensures { IfOk result (λ streams. flat_map (λ stream. stream) (map (λ v. v.items) streams.items)
        ≡ flat_map streams_in coded.items) }
{
    let mut streams = Vec::new(alloc);
    for scan in coded {
        append(&mut streams, scan.streams)?;
    }
    Ok(streams)
}

// Streams after others.
fn append(streams: &mut Vec<Vec<u8>>, more: Vec<Vec<u8>>) -> Result<(), NoMemory>
    ensures { OnOk result (streams.new.items ≡ streams.old.items ++ more.items) }
{
    for stream in more {
        push(streams, stream)?;
    }
    Ok(())
}

/// A front, and after it these streams, one after another. The shorter of the front and the first stream moves to the
/// other one's memory, and each other stream is dropped once it is there: so nothing longer than a stream is in memory
/// twice.
#[inline(never)]
pub fn joined_after(
    alloc: Global,
    front: Vec<u8>,
    streams: Vec<Vec<u8>>,
) -> Result<Vec<u8>, NoMemory>
    ensures { IfOk result (λ made. made.items
        ≡ front.items ++ flat_map (λ stream. stream) (map (λ v. v.items) streams.items)) }
{
    if front.len() > first_length(streams.as_slice()) {
        let mut made = front;
        put_streams(&mut made, streams)?;
        return Ok(made);
    }
    let mut made = Vec::new(alloc);
    put_streams(&mut made, streams)?;
    put_before(&mut made, front.as_slice())?;
    Ok(made)
}

// How many bytes the first stream has, 0 if there is none.
fn first_length(streams: &[Vec<u8>]) -> usize
    ensures { result ≡ get_or (map (λ v. length v.items) streams.now) 0 0 }
{
    match streams.first() {
        Some(stream) => stream.len(),
        None => 0,
    }
}

// Appends these streams, one after another. Nothing is copied of the first that has bytes, if the list has none.
fn put_streams(made: &mut Vec<u8>, streams: Vec<Vec<u8>>) -> Result<(), NoMemory>
    ensures { OnOk result (made.new.items
        ≡ made.old.items ++ flat_map (λ stream. stream) (map (λ v. v.items) streams.items)) }
{
    for stream in streams {
        if made.is_empty() {
            *made = stream;
        } else {
            let stream = stream.as_slice();
            extend_from_slice(made, stream)?;
        }
    }
    Ok(())
}

// Puts items before those of a list.
fn put_before(list: &mut Vec<u8>, front: &[u8]) -> Result<(), NoMemory>
    ensures { OnOk result (list.new.items ≡ front.now ++ list.old.items) }
{
    extend_from_slice(list, front)?;
    list.rotate_right(front.len());
    Ok(())
}
