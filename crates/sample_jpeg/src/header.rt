// The header of a sample (ITU-T T.81, B.2).
ghost use Rattle.std.specs.Prelude.{◌≡◌, ◌++◌, ◌<◌, ◌^◌, OnOk, flat_map, length};
ghost use Rattle.jpeg_marker.specs.MarkerSegments.{segment_text};
ghost use Rattle.sample_jpeg.specs.declared.extent.Extent.{Extent};
ghost use Rattle.sample_jpeg.specs.SampleHeader.{IsExtent, frame_segment, interval_segments, sample_header, sample_plan, table_segment};

use crate::extent::Extent;
use allocation::{NoMemory, extend_from_slice, push};
use jpeg_marker::{Plan, read_header};

/// How many code words there are of each length: twelve of 4 bits for the categories of DC differences, and 162 of 8
/// bits for the symbols of AC coefficients.
const DC_COUNTS: [u8; 16] = [0, 0, 0, 12, 0, 0, 0, 0, 0, 0, 0, 0, 0, 0, 0, 0];

const AC_COUNTS: [u8; 16] = [0, 0, 0, 0, 0, 0, 0, 162, 0, 0, 0, 0, 0, 0, 0, 0];

/// The categories of DC differences.
const DC_VALUES: [u8; 12] = [0, 1, 2, 3, 4, 5, 6, 7, 8, 9, 10, 11];

/// The end of a block, each run with each category from 1 to 10, and sixteen zeros, in rising order.
const AC_VALUES: [u8; 162] = [
    0x00, 0x01, 0x02, 0x03, 0x04, 0x05, 0x06, 0x07, 0x08, 0x09, 0x0a, 0x11, 0x12, 0x13, 0x14, 0x15,
    0x16, 0x17, 0x18, 0x19, 0x1a, 0x21, 0x22, 0x23, 0x24, 0x25, 0x26, 0x27, 0x28, 0x29, 0x2a, 0x31,
    0x32, 0x33, 0x34, 0x35, 0x36, 0x37, 0x38, 0x39, 0x3a, 0x41, 0x42, 0x43, 0x44, 0x45, 0x46, 0x47,
    0x48, 0x49, 0x4a, 0x51, 0x52, 0x53, 0x54, 0x55, 0x56, 0x57, 0x58, 0x59, 0x5a, 0x61, 0x62, 0x63,
    0x64, 0x65, 0x66, 0x67, 0x68, 0x69, 0x6a, 0x71, 0x72, 0x73, 0x74, 0x75, 0x76, 0x77, 0x78, 0x79,
    0x7a, 0x81, 0x82, 0x83, 0x84, 0x85, 0x86, 0x87, 0x88, 0x89, 0x8a, 0x91, 0x92, 0x93, 0x94, 0x95,
    0x96, 0x97, 0x98, 0x99, 0x9a, 0xa1, 0xa2, 0xa3, 0xa4, 0xa5, 0xa6, 0xa7, 0xa8, 0xa9, 0xaa, 0xb1,
    0xb2, 0xb3, 0xb4, 0xb5, 0xb6, 0xb7, 0xb8, 0xb9, 0xba, 0xc1, 0xc2, 0xc3, 0xc4, 0xc5, 0xc6, 0xc7,
    0xc8, 0xc9, 0xca, 0xd1, 0xd2, 0xd3, 0xd4, 0xd5, 0xd6, 0xd7, 0xd8, 0xd9, 0xda, 0xe1, 0xe2, 0xe3,
    0xe4, 0xe5, 0xe6, 0xe7, 0xe8, 0xe9, 0xea, 0xf0, 0xf1, 0xf2, 0xf3, 0xf4, 0xf5, 0xf6, 0xf7, 0xf8,
    0xf9, 0xfa,
];

/// Appends the header.
pub(crate) fn put_header(file: &mut Vec<u8>, extent: &Extent) -> Result<(), NoMemory>
    requires { IsExtent extent.now }
    ensures { OnOk result (file.new.items ≡ file.old.items ++ sample_header extent.now) }
{
    extend_from_slice(file, &[0xff, 0xd8])?;
    put_frame(file, extent)?;
    put_table(file, 0x00, &DC_COUNTS, &DC_VALUES)?;
    put_table(file, 0x10, &AC_COUNTS, &AC_VALUES)?;
    put_interval(file, extent)?;
    extend_from_slice(file, &[0xff, 0xda, 0, 12, 3, 1, 0, 2, 0, 3, 0, 0, 63, 0])?;
    Ok(())
}

/// What the header says.
#[inline(never)]
pub(crate) fn plan_of(header: &[u8]) -> Plan
    requires { (e : Extent) × IsExtent e × (header.now ≡ sample_header e) }
    ensures { (e : Extent) → IsExtent e → header.now ≡ sample_header e → result ≡ sample_plan e }
{
    match read_header(header) {
        Ok(plan) => plan,
        Err(_) => unreachable!(),
    }
}

// SOF0: 8 bits a sample, the lines, the samples in a line, and the three components.
fn put_frame(file: &mut Vec<u8>, extent: &Extent) -> Result<(), NoMemory>
    requires { IsExtent extent.now }
    ensures { OnOk result (file.new.items
        ≡ file.old.items ++ segment_text (frame_segment extent.now)) }
{
    extend_from_slice(file, &[0xff, 0xc0, 0, 17, 8])?;
    extend_from_slice(file, &(8 * extent.rows).to_be_bytes())?;
    extend_from_slice(file, &(8 * extent.columns).to_be_bytes())?;
    extend_from_slice(file, &[3, 1, 0x11, 0, 2, 0x11, 0, 3, 0x11, 0])?;
    Ok(())
}

// DHT: a table with its class and number.
fn put_table(
    file: &mut Vec<u8>,
    class_and_number: u8,
    counts: &[u8; 16],
    values: &[u8],
) -> Result<(), NoMemory>
    requires { length values.now < 2 ^ 8 }
    ensures { OnOk result (file.new.items ≡ file.old.items
        ++ segment_text (table_segment class_and_number
        (record { counts = counts.now; values = values.now }))) }
{
    extend_from_slice(file, &[0xff, 0xc4])?;
    extend_from_slice(file, &(values.len() as u16 + 19).to_be_bytes())?;
    push(file, class_and_number)?;
    extend_from_slice(file, counts)?;
    extend_from_slice(file, values)?;
    Ok(())
}

// DRI, if there are restarts: an interval is a row of MCUs.
fn put_interval(file: &mut Vec<u8>, extent: &Extent) -> Result<(), NoMemory>
    ensures { OnOk result (file.new.items
        ≡ file.old.items ++ flat_map segment_text (interval_segments extent.now)) }
{
    if extent.restarts {
        extend_from_slice(file, &[0xff, 0xdd, 0, 4])?;
        extend_from_slice(file, &extent.columns.to_be_bytes())?;
    }
    Ok(())
}
