// An answer in numbers.
ghost use Rattle.std.specs.Prelude.{◌≡◌};
ghost use Rattle.lepton_c.specs.Numbers.{box_detail, box_inner, box_number, cause_number, header_detail, numbers_of, plain, refused, scan_detail, scan_number, sized};

use crate::answer::Answer;
use box_format::BoxRefusal;
use handover::StreamCause;
use jpeg_marker::HeaderRefusal;
use scan_spec::ScanRefusal;

/// How a call ended.
#[repr(C)]
#[derive(Clone, Copy)]
pub struct LeptonEnding {
    /// 0: done; 1: refused; 2: a bad call; 4: no room; 5: out of memory.
    pub status: u8,
    /// The number of the refusal, 1 to 54, else 0.
    pub number: u8,
    /// Of number 33 that of the header's refusal, else 0.
    pub inner: u8,
    /// The place, the code or the segment that the program's line names, else 0.
    pub detail: u64,
    /// How many bytes were written, with any status.
    pub length: u64,
    /// How many bytes of room the whole answer takes, if the call knows it, else 0.
    pub wanted: u64,
}

/// An answer in numbers.
pub(crate) fn numbers(answer: Answer) -> LeptonEnding
    ensures { result ≡ numbers_of answer }
{
    match answer {
        Answer::Done { length } => plain(0, length),
        Answer::Counted { wanted } => sized(0, wanted),
        Answer::Header(refusal) => refused(refusal.number(), 0, header_detail(refusal), 0),
        Answer::Scan(refusal) => refused(scan_number(refusal), 0, scan_detail(refusal), 0),
        Answer::Box(refusal) => refused(
            box_number(refusal),
            box_inner(refusal),
            box_detail(refusal),
            0,
        ),
        Answer::Fault { fault, length } => refused(
            cause_number(fault.cause),
            0,
            u64::from(fault.segment),
            length,
        ),
        Answer::PadSpelling { length } => refused(46, 0, 0, length),
        Answer::ChunkShort { length } => refused(47, 0, 0, length),
        Answer::TooLong => refused(50, 0, 0, 0),
        Answer::NoChunk => refused(51, 0, 0, 0),
        Answer::ManyScans => refused(52, 0, 0, 0),
        Answer::RangeBad => refused(54, 0, 0, 0),
        Answer::BadCall => plain(2, 0),
        Answer::NoRoom { length } => plain(4, length),
        Answer::Larger { wanted } => sized(4, wanted),
        Answer::NoMemory => plain(5, 0),
    }
}

// An answer that isn't a refusal.
fn plain(status: u8, length: u64) -> LeptonEnding
    ensures { result ≡ plain status length }
{
    LeptonEnding {
        status,
        number: 0,
        inner: 0,
        detail: 0,
        length,
        wanted: 0,
    }
}

// An answer of which nothing is written, but how much room it takes.
fn sized(status: u8, wanted: u64) -> LeptonEnding
    ensures { result ≡ sized status wanted }
{
    LeptonEnding {
        status,
        number: 0,
        inner: 0,
        detail: 0,
        length: 0,
        wanted,
    }
}

// A refusal.
fn refused(number: u8, inner: u8, detail: u64, length: u64) -> LeptonEnding
    ensures { result ≡ refused number inner detail length }
{
    LeptonEnding {
        status: 1,
        number,
        inner,
        detail,
        length,
        wanted: 0,
    }
}

fn scan_number(refusal: ScanRefusal) -> u8
    ensures { result ≡ scan_number refusal }
{
    match refusal {
        ScanRefusal::ScanCut { .. } => 16,
        ScanRefusal::CodeBad { .. } => 17,
        ScanRefusal::SymbolBad { .. } => 18,
        ScanRefusal::RunPast { .. } => 19,
        ScanRefusal::LooseZeros { .. } => 20,
        ScanRefusal::DcRange { .. } => 21,
        ScanRefusal::MarkerInScan { .. } => 22,
        ScanRefusal::RestartBad { .. } => 23,
        ScanRefusal::MixedPad { .. } => 24,
    }
}

fn box_number(refusal: BoxRefusal) -> u8
    ensures { result ≡ box_number refusal }
{
    match refusal {
        BoxRefusal::BoxMagic => 30,
        BoxRefusal::BoxVersion => 31,
        BoxRefusal::BoxCut => 32,
        BoxRefusal::BoxHeader(_) => 33,
        BoxRefusal::BoxSegments => 34,
        BoxRefusal::BoxPad => 35,
        BoxRefusal::HandoverBad { .. } => 36,
        BoxRefusal::BoxLong => 37,
        BoxRefusal::HeaderLong { .. } => 38,
        BoxRefusal::BoxChunk => 39,
        BoxRefusal::BoxPlaces => 53,
    }
}

fn cause_number(cause: StreamCause) -> u8
    ensures { result ≡ cause_number cause }
{
    match cause {
        StreamCause::BlockCount => 40,
        StreamCause::DcRange => 41,
        StreamCause::DiffRange => 42,
        StreamCause::NoCode => 43,
        StreamCause::Seam { .. } => 44,
        StreamCause::StreamBad => 45,
        StreamCause::PlaceBad { .. } => 48,
    }
}

// The number of the header's refusal that a container's is.
fn box_inner(refusal: BoxRefusal) -> u8
    ensures { result ≡ box_inner refusal }
{
    match refusal {
        BoxRefusal::BoxHeader(refusal) => refusal.number(),
        _ => 0,
    }
}

fn header_detail(refusal: HeaderRefusal) -> u64
    ensures { result ≡ header_detail refusal }
{
    match refusal {
        HeaderRefusal::NotBaseline { code } => u64::from(code),
        HeaderRefusal::MarkerBad { place }
        | HeaderRefusal::LengthBad { place }
        | HeaderRefusal::TableBad { place } => place as u64,
        _ => 0,
    }
}

fn scan_detail(refusal: ScanRefusal) -> u64
    ensures { result ≡ scan_detail refusal }
{
    match refusal {
        ScanRefusal::ScanCut { place }
        | ScanRefusal::CodeBad { place }
        | ScanRefusal::SymbolBad { place }
        | ScanRefusal::RunPast { place }
        | ScanRefusal::LooseZeros { place }
        | ScanRefusal::DcRange { place }
        | ScanRefusal::MarkerInScan { place }
        | ScanRefusal::RestartBad { place }
        | ScanRefusal::MixedPad { place } => place as u64,
    }
}

fn box_detail(refusal: BoxRefusal) -> u64
    ensures { result ≡ box_detail refusal }
{
    match refusal {
        BoxRefusal::BoxHeader(refusal) => header_detail(refusal),
        BoxRefusal::HandoverBad { segment } => u64::from(segment),
        BoxRefusal::HeaderLong { place } => place as u64,
        _ => 0,
    }
}
