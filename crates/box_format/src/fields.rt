// The numbers that a container's fields have, and where its parts start.
ghost use Rattle.std.specs.Prelude.{if◌then◌else◌, ◌≡◌, ◌+◌, ◌*◌, ◌^◌, ◌<◌, ◌≤◌, true, length, drop, sum, slice_index};
ghost use Rattle.byteorder.specs.Endian.{big_number};
ghost use Rattle.box_format.specs.Versions.{layout_of, version_in};
ghost use Rattle.box_format.specs.Raws.{length_from, place_from};
ghost use Rattle.box_format.specs.Fields.{scans_in, trailer_length, segments_at, header_length, list_length, chunk_at, record_place, fields_place, list_place, streams_place, named_end, in_records};

use crate::chunk::Chunk;
use crate::version::Version;
use byteorder::{BigEndian, ByteOrder};

/// The byte at a place, 0 where it is missing.
pub(crate) fn byte_in(bytes: &[u8], place: usize) -> u8
    ensures { result ≡ slice_index bytes.now place }
{
    match bytes.get(place) {
        Some(byte) => *byte,
        None => 0,
    }
}

/// The version, which is the first one where the bytes say none.
pub(crate) fn version_in(bytes: &[u8]) -> Version
    ensures { result ≡ version_in bytes.now }
{
    match byte_in(bytes, 4) {
        2 => Version::Second,
        3 => Version::Third,
        4 => Version::Fourth,
        5 => Version::Fifth,
        _ => Version::First,
    }
}

/// How many scans there are, 0 where that byte is missing.
pub(crate) fn scans_in(version: Version, bytes: &[u8]) -> u8
    ensures { result ≡ scans_in (layout_of version) bytes.now }
{
    if version.layout().several {
        byte_in(bytes, 5)
    } else {
        1
    }
}

// The number of four bytes at a place.
fn number_at(bytes: &[u8], place: usize) -> u32
    requires { place + 4 ≤ length bytes.now }
    ensures { result ≡ big_number 4 (drop place bytes.now) }
{
    BigEndian::read_u32(&bytes[place..])
}

// The number of eight bytes at a place.
fn long_at(bytes: &[u8], place: usize) -> u64
    requires { place + 8 ≤ length bytes.now }
    ensures { result ≡ big_number 8 (drop place bytes.now) }
{
    BigEndian::read_u64(&bytes[place..])
}

/// The length of the trailer.
pub(crate) fn trailer_length(version: Version, bytes: &[u8]) -> u32
    requires { (layout_of version).trailer + 4 ≤ length bytes.now }
    ensures { result ≡ trailer_length (layout_of version) bytes.now }
{
    number_at(bytes, version.layout().trailer)
}

// The fields of a scan, by the place where they start.

/// How many segments the scan has, 0 where that byte is missing.
pub(crate) fn segments_at(bytes: &[u8], place: usize) -> u8
    requires { place < 2 ^ 32 }
    ensures { result ≡ segments_at bytes.now place }
{
    byte_in(bytes, place + 1)
}

/// The length of the header.
pub(crate) fn header_length(bytes: &[u8], place: usize) -> u32
    requires { place + 10 ≤ length bytes.now }
    ensures { result ≡ header_length bytes.now place }
{
    number_at(bytes, place + 2)
}

/// The length of the pad list, 0 in a version that has none.
pub(crate) fn list_length(version: Version, bytes: &[u8], place: usize) -> u32
    requires { place + (layout_of version).fields ≤ length bytes.now }
    ensures { result ≡ list_length (layout_of version) bytes.now place }
{
    let layout = version.layout();
    if layout.listed {
        number_at(bytes, place + layout.list)
    } else {
        0
    }
}

/// The chunk, in a version that has one.
pub(crate) fn chunk_at(version: Version, bytes: &[u8], place: usize) -> Option<Chunk>
    requires { place + (layout_of version).fields ≤ length bytes.now }
    ensures { result ≡ chunk_at (layout_of version) bytes.now place }
{
    if !version.layout().chunked {
        return None;
    }
    Some(Chunk {
        place: long_at(bytes, place + 14),
        length: long_at(bytes, place + 22),
        skip: long_at(bytes, place + 30),
        from: number_at(bytes, place + 38),
        to: number_at(bytes, place + 42),
    })
}

/// The place of the scan's end, in a version that has places.
pub(crate) fn end_at(version: Version, bytes: &[u8], place: usize) -> u64
    requires placed { (layout_of version).placed ≡ true }
    requires fields { place + (layout_of version).fields ≤ length bytes.now }
    ensures { result ≡ big_number 8 (drop (place + 14) bytes.now) }
{
    let _placed = version.layout().placed;
    long_at(bytes, place + 14)
}

/// The place of the scan's end, 0 in a version that has no places.
pub(crate) fn end_in(version: Version, bytes: &[u8], place: usize) -> u64
    requires { place + (layout_of version).fields ≤ length bytes.now }
    ensures { result ≡ (if (layout_of version).placed
        then big_number 8 (drop (place + 14) bytes.now) else 0) }
{
    if version.layout().placed {
        end_at(version, bytes, place)
    } else {
        0
    }
}

/// The length of the stream, in the record at a place.
pub(crate) fn length_at(bytes: &[u8], place: usize) -> u64
    requires { place + 22 ≤ length bytes.now }
    ensures { result ≡ length_from bytes.now place }
{
    long_at(bytes, place + 14)
}

/// The place of the segment's first byte, in the record at a place, in a version that has places.
pub(crate) fn place_at(bytes: &[u8], place: usize) -> u64
    requires { place + 30 ≤ length bytes.now }
    ensures { result ≡ place_from bytes.now place }
{
    long_at(bytes, place + 22)
}

/// How many bytes the records have.
pub(crate) fn records_room(version: Version, bytes: &[u8], place: usize) -> usize
    requires { place < 2 ^ 32 }
    ensures value { result ≡ (layout_of version).room * segments_at bytes.now place }
    ensures few { result ≤ 7650 }
{
    version.layout().room * usize::from(segments_at(bytes, place))
}

// How many bytes the streams have. Lengths of 64 bits each don't overflow it.
fn streams_room(version: Version, bytes: &[u8], place: usize) -> u128
    requires small { place < 2 ^ 32 }
    requires fields { record_place (layout_of version) place (segments_at bytes.now place)
        ≤ length bytes.now }
    ensures value { result ≡ sum (in_records length_from (layout_of version) bytes.now place) }
    ensures few { result ≤ 2 ^ 72 }
{
    let layout = version.layout();
    let mut room = 0;
    for i in 0..segments_at(bytes, place) {
        let record = place + layout.fields + layout.room * usize::from(i);
        room += u128::from(length_at(bytes, record));
    }
    room
}

// Where the fields of the next scan start.
fn next_place(version: Version, bytes: &[u8], place: usize) -> usize
    requires { place < 2 ^ 32 }
    ensures value { result
        ≡ record_place (layout_of version) place (segments_at bytes.now place) }
    ensures within { result ≤ place + 7696 }
{
    place + version.layout().fields + records_room(version, bytes, place)
}

// Where the parts of a scan start, by its number, and where those of the last scan end, by the number of scans.

/// Where the fields start.
pub(crate) fn fields_place(version: Version, bytes: &[u8], scan: u8) -> usize
    ensures value { result ≡ fields_place (layout_of version) bytes.now scan }
    ensures within { result ≤ 10 + 7696 * scan }
{
    let mut place = version.layout().first;
    for _ in 0..scan {
        place = next_place(version, bytes, place);
    }
    place
}

/// Where the pad list starts, before the header.
pub(crate) fn list_place(version: Version, bytes: &[u8], scan: u8) -> usize
    requires fields { fields_place (layout_of version) bytes.now
        (scans_in (layout_of version) bytes.now) ≤ length bytes.now }
    requires scan { scan ≤ scans_in (layout_of version) bytes.now }
    ensures value { result ≡ list_place (layout_of version) bytes.now scan }
    ensures within { result ≤ 2 ^ 21 + 2 ^ 33 * scan }
{
    let mut fields = version.layout().first;
    let mut place = fields_place(version, bytes, scans_in(version, bytes));
    for _ in 0..scan {
        place += list_length(version, bytes, fields) as usize;
        place += header_length(bytes, fields) as usize;
        fields = next_place(version, bytes, fields);
    }
    place
}

/// Where the streams start. Sums of lengths don't overflow it.
pub(crate) fn streams_place(version: Version, bytes: &[u8], scan: u8) -> u128
    requires fields { fields_place (layout_of version) bytes.now
        (scans_in (layout_of version) bytes.now) ≤ length bytes.now }
    requires scan { scan ≤ scans_in (layout_of version) bytes.now }
    ensures { result ≡ streams_place (layout_of version) bytes.now scan }
{
    let mut fields = version.layout().first;
    let mut place = list_place(version, bytes, scans_in(version, bytes)) as u128;
    place += u128::from(trailer_length(version, bytes));
    for _ in 0..scan {
        place += streams_room(version, bytes, fields);
        fields = next_place(version, bytes, fields);
    }
    place
}

/// The end that the fields name.
pub(crate) fn named_end(version: Version, bytes: &[u8]) -> u128
    requires { fields_place (layout_of version) bytes.now
        (scans_in (layout_of version) bytes.now) ≤ length bytes.now }
    ensures { result ≡ named_end (layout_of version) bytes.now }
{
    streams_place(version, bytes, scans_in(version, bytes))
}
