// The records of a scan's segments, wherever they are.
ghost use Rattle.std.specs.Prelude.{◌≡◌, ◌+◌, ◌*◌, ◌^◌, ◌<◌, ◌≤◌, length, take, drop, sum};
ghost use Rattle.box_format.specs.Raws.{length_from};
ghost use Rattle.box_format.specs.Slices.{HasSegments, lengths_in, place_among};

use crate::fields::length_at;
use crate::version::Version;

/// The record at a place without the length of its stream and the segment's place.
pub(crate) fn record_at(bytes: &[u8], place: usize) -> [u8; 14]
    requires { place + 14 ≤ length bytes.now }
    ensures { result ≡ take 14 (drop place bytes.now) }
{
    let mut record = [0; 14];
    let (_, rest) = bytes.split_at(place);
    let (first, _) = rest.split_at(14);
    record.copy_from_slice(first);
    record
}

/// Where the record of a segment starts among those of its scan.
pub(crate) fn place_among(version: Version, segment: u8) -> usize
    ensures value { result ≡ place_among version segment }
    ensures few { result ≤ 30 * segment }
{
    version.layout().room * usize::from(segment)
}

/// The length of a segment's stream, from the records of its scan.
pub(crate) fn length_among(version: Version, records: &[u8], segment: u8) -> u64
    requires { place_among version (segment + 1) ≤ length records.now }
    ensures { result ≡ length_from records.now (place_among version segment) }
{
    length_at(records, place_among(version, segment))
}

// Where the stream of a segment starts among those of its scan.
fn start_among(version: Version, records: &[u8], segment: u8) -> usize
    requires each { place_among version segment ≤ length records.now }
    requires fits { sum (lengths_in version segment records.now) < 2 ^ 64 }
    ensures { result ≡ sum (lengths_in version segment records.now) }
{
    let mut place = 0;
    for i in 0..segment {
        place += length_among(version, records, i) as usize;
    }
    place
}

/// The stream of a segment among those of its scan.
pub(crate) fn stream_among<'a>(
    version: Version,
    records: &[u8],
    streams: &'a [u8],
    segment: u8,
) -> &'a [u8]
    requires { HasSegments version (segment + 1) records.now streams.now }
    ensures { result.now ≡ take (length_from records.now (place_among version segment))
        (drop (sum (lengths_in version segment records.now)) streams.now) }
{
    let (_, rest) = streams.split_at(start_among(version, records, segment));
    let (stream, _) = rest.split_at(length_among(version, records, segment) as usize);
    stream
}
