// Why bytes are refused, and how a line says so.
ghost use Rattle.std.specs.Prelude.{◌≡◌, ◌+◌, ◌≤◌, ◌++◌, length};
ghost use Rattle.lepton_run.specs.Lines.{box_fields, fields_of, header_text, refusal_text};

use crate::line::Line;
use crate::refusal_names::{box_words, cause_words, name, place, scan_words};
use box_format::BoxRefusal;
use handover::StreamFault;
use jpeg_marker::HeaderRefusal;
use scan_spec::ScanRefusal;

/// Why bytes are refused.
#[derive(Clone, Copy, Debug, PartialEq, Eq)]
pub enum Refusal {
    /// 1 to 15: a header is due that isn't accepted.
    Header(HeaderRefusal),
    /// 16 to 24: after a header there is no scan that is accepted.
    Scan(ScanRefusal),
    /// 30 to 39, 53: the bytes are no container.
    Box(BoxRefusal),
    /// 40 to 45, 48: a segment has a fault. `decode` and `range` have written the bytes before it, `index` nothing.
    Fault(StreamFault),
    /// 46: the container spells its pad bits in another way than a file's. `decode` has written the whole file, `index`
    /// nothing.
    PadSpelling,
    /// 47: a chunk's segments have fewer bytes than it says; what there is of it before its trailer is written.
    ChunkShort,
    /// 50: there are more bytes than the limit.
    TooLong,
    /// 51: the file of one scan ends before the chunk.
    NoChunk,
    /// 52: the file has several scans, and chunks are of files of one scan.
    ManyScans,
    /// 54: the range ends before it begins, or after the file's end.
    RangeBad,
}

impl Refusal {
    /// Adds its number, its name and what it holds.
    pub(crate) fn note(self, line: &mut Line)
        requires { length line.old ≤ 16 }
        ensures text { line.new ≡ line.old ++ refusal_text self }
        ensures short { length line.new ≤ 95 }
    {
        match self {
            Refusal::Header(refusal) => note_header(refusal, line),
            Refusal::Scan(refusal) => {
                line.push(scan_words(refusal));
                line.push(b" at ");
                line.push_number(place(refusal));
            }
            Refusal::Box(refusal) => {
                line.push(box_words(refusal));
                note_box_fields(refusal, line);
            }
            Refusal::Fault(fault) => {
                line.push(cause_words(fault.cause));
                line.push(b" segment ");
                line.push_number(usize::from(fault.segment));
            }
            Refusal::PadSpelling => line.push(b"46 PadSpelling"),
            Refusal::ChunkShort => line.push(b"47 ChunkShort"),
            Refusal::TooLong => line.push(b"50 TooLong"),
            Refusal::NoChunk => line.push(b"51 NoChunk"),
            Refusal::ManyScans => line.push(b"52 ManyScans"),
            Refusal::RangeBad => line.push(b"54 RangeBad"),
        }
    }
}

// A header's refusal.
fn note_header(refusal: HeaderRefusal, line: &mut Line)
    requires { length line.old ≤ 31 }
    ensures text { line.new ≡ line.old ++ header_text refusal }
    ensures short { length line.new ≤ length line.old + 60 }
{
    line.push_number(usize::from(refusal.number()));
    line.push(b" ");
    line.push(name(refusal));
    note_fields(refusal, line);
}

// What a container's refusal holds.
fn note_box_fields(refusal: BoxRefusal, line: &mut Line)
    requires { length line.old ≤ 30 }
    ensures text { line.new ≡ line.old ++ box_fields refusal }
    ensures short { length line.new ≤ length line.old + 61 }
{
    match refusal {
        BoxRefusal::BoxHeader(refusal) => {
            line.push(b" ");
            note_header(refusal, line);
        }
        BoxRefusal::HandoverBad { segment } => {
            line.push(b" segment ");
            line.push_number(usize::from(segment));
        }
        BoxRefusal::HeaderLong { place } => {
            line.push(b" at ");
            line.push_number(place);
        }
        _ => {}
    }
}

// The place or the code that a header's refusal holds.
fn note_fields(refusal: HeaderRefusal, line: &mut Line)
    requires { length line.old ≤ 70 }
    ensures text { line.new ≡ line.old ++ fields_of refusal }
    ensures short { length line.new ≤ length line.old + 26 }
{
    match refusal {
        HeaderRefusal::NotBaseline { code } => {
            line.push(b" code ");
            line.push_number(usize::from(code));
        }
        HeaderRefusal::MarkerBad { place }
        | HeaderRefusal::LengthBad { place }
        | HeaderRefusal::TableBad { place } => {
            line.push(b" at ");
            line.push_number(place);
        }
        _ => {}
    }
}
