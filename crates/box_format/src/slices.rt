// The parts of a scan, in bytes that have them all.
ghost use Rattle.std.specs.Prelude.{◌≡◌, ◌<◌};
ghost use Rattle.box_format.specs.Versions.{layout_of};
ghost use Rattle.box_format.specs.Fields.{scans_in, trailer_at};
ghost use Rattle.box_format.specs.Whole.{IsUncut, list_at, header_at, records_at, streams_at};

use crate::fields::{
    fields_place, header_length, list_length, list_place, records_room, scans_in, streams_place,
    trailer_length,
};
use crate::version::Version;

/// The pad list of a scan.
pub(crate) fn list_at(version: Version, bytes: &[u8], scan: u8) -> &[u8]
    requires whole { IsUncut (layout_of version) bytes.now }
    requires scan { scan < scans_in (layout_of version) bytes.now }
    ensures { result.now ≡ list_at (layout_of version) bytes.now scan }
{
    let length = list_length(version, bytes, fields_place(version, bytes, scan));
    let (_, rest) = bytes.split_at(list_place(version, bytes, scan));
    let (list, _) = rest.split_at(length as usize);
    list
}

/// The header of a scan.
pub(crate) fn header_at(version: Version, bytes: &[u8], scan: u8) -> &[u8]
    requires whole { IsUncut (layout_of version) bytes.now }
    requires scan { scan < scans_in (layout_of version) bytes.now }
    ensures { result.now ≡ header_at (layout_of version) bytes.now scan }
{
    let fields = fields_place(version, bytes, scan);
    let place = list_place(version, bytes, scan) + list_length(version, bytes, fields) as usize;
    let (_, rest) = bytes.split_at(place);
    let (header, _) = rest.split_at(header_length(bytes, fields) as usize);
    header
}

/// The trailer of a scan: that of the container if the scan is the last one, else none.
pub(crate) fn trailer_at(version: Version, bytes: &[u8], scan: u8) -> &[u8]
    requires { IsUncut (layout_of version) bytes.now }
    ensures { result.now ≡ trailer_at (layout_of version) bytes.now scan }
{
    if u16::from(scan) + 1 != u16::from(scans_in(version, bytes)) {
        return &[];
    }
    let (_, rest) = bytes.split_at(list_place(version, bytes, scans_in(version, bytes)));
    let (trailer, _) = rest.split_at(trailer_length(version, bytes) as usize);
    trailer
}

/// The records of the segments of a scan.
pub(crate) fn records_at(version: Version, bytes: &[u8], scan: u8) -> &[u8]
    requires whole { IsUncut (layout_of version) bytes.now }
    requires scan { scan < scans_in (layout_of version) bytes.now }
    ensures { result.now ≡ records_at (layout_of version) bytes.now scan }
{
    let fields = fields_place(version, bytes, scan);
    let (_, rest) = bytes.split_at(fields + version.layout().fields);
    let (records, _) = rest.split_at(records_room(version, bytes, fields));
    records
}

/// The streams of a scan, and those of the scans after it.
pub(crate) fn streams_at(version: Version, bytes: &[u8], scan: u8) -> &[u8]
    requires whole { IsUncut (layout_of version) bytes.now }
    requires scan { scan < scans_in (layout_of version) bytes.now }
    ensures { result.now ≡ streams_at (layout_of version) bytes.now scan }
{
    let (_, streams) = bytes.split_at(streams_place(version, bytes, scan) as usize);
    streams
}
