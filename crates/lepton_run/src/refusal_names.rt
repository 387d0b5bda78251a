// The numbers and names of refusals.
ghost use Rattle.std.specs.Prelude.{◌≡◌, ◌≤◌, length};
ghost use Rattle.lepton_run.specs.Lines.{box_words, cause_words, name_of, scan_place, scan_words};

use box_format::BoxRefusal;
use handover::StreamCause;
use jpeg_marker::HeaderRefusal;
use scan_spec::ScanRefusal;

/// The name of a header's refusal.
pub(crate) fn name(refusal: HeaderRefusal) -> &'static [u8]
    ensures text { result.now ≡ name_of refusal }
    ensures short { length result.now ≤ 13 }
{
    match refusal {
        HeaderRefusal::NotJpeg => b"NotJpeg",
        HeaderRefusal::HeaderCut => b"HeaderCut",
        HeaderRefusal::MarkerBad { .. } => b"MarkerBad",
        HeaderRefusal::NotBaseline { .. } => b"NotBaseline",
        HeaderRefusal::LengthBad { .. } => b"LengthBad",
        HeaderRefusal::FrameTwice => b"FrameTwice",
        HeaderRefusal::PrecisionBad => b"PrecisionBad",
        HeaderRefusal::SizeZero => b"SizeZero",
        HeaderRefusal::ComponentsBad => b"ComponentsBad",
        HeaderRefusal::TableBad { .. } => b"TableBad",
        HeaderRefusal::NoFrame => b"NoFrame",
        HeaderRefusal::MultiScan => b"MultiScan",
        HeaderRefusal::ScanParams => b"ScanParams",
        HeaderRefusal::NoTable => b"NoTable",
        HeaderRefusal::TooManyBlocks => b"TooManyBlocks",
    }
}

/// The number and the name of a scan's refusal.
pub(crate) fn scan_words(refusal: ScanRefusal) -> &'static [u8]
    ensures text { result.now ≡ scan_words refusal }
    ensures short { length result.now ≤ 15 }
{
    match refusal {
        ScanRefusal::ScanCut { .. } => b"16 ScanCut",
        ScanRefusal::CodeBad { .. } => b"17 CodeBad",
        ScanRefusal::SymbolBad { .. } => b"18 SymbolBad",
        ScanRefusal::RunPast { .. } => b"19 RunPast",
        ScanRefusal::LooseZeros { .. } => b"20 LooseZeros",
        ScanRefusal::DcRange { .. } => b"21 DcRange",
        ScanRefusal::MarkerInScan { .. } => b"22 MarkerInScan",
        ScanRefusal::RestartBad { .. } => b"23 RestartBad",
        ScanRefusal::MixedPad { .. } => b"24 MixedPad",
    }
}

/// The place that a scan's refusal holds.
pub(crate) fn place(refusal: ScanRefusal) -> usize
    ensures { result ≡ scan_place refusal }
{
    match refusal {
        ScanRefusal::ScanCut { place }
        | ScanRefusal::CodeBad { place }
        | ScanRefusal::SymbolBad { place }
        | ScanRefusal::RunPast { place }
        | ScanRefusal::LooseZeros { place }
        | ScanRefusal::DcRange { place }
        | ScanRefusal::MarkerInScan { place }
        | ScanRefusal::RestartBad { place }
        | ScanRefusal::MixedPad { place } => place,
    }
}

/// The number and the name of a container's refusal.
pub(crate) fn box_words(refusal: BoxRefusal) -> &'static [u8]
    ensures text { result.now ≡ box_words refusal }
    ensures short { length result.now ≤ 14 }
{
    match refusal {
        BoxRefusal::BoxMagic => b"30 BoxMagic",
        BoxRefusal::BoxVersion => b"31 BoxVersion",
        BoxRefusal::BoxCut => b"32 BoxCut",
        BoxRefusal::BoxHeader(_) => b"33 BoxHeader",
        BoxRefusal::BoxSegments => b"34 BoxSegments",
        BoxRefusal::BoxPad => b"35 BoxPad",
        BoxRefusal::HandoverBad { .. } => b"36 HandoverBad",
        BoxRefusal::BoxLong => b"37 BoxLong",
        BoxRefusal::HeaderLong { .. } => b"38 HeaderLong",
        BoxRefusal::BoxChunk => b"39 BoxChunk",
        BoxRefusal::BoxPlaces => b"53 BoxPlaces",
    }
}

/// The number and the name of the cause of a segment's fault.
pub(crate) fn cause_words(cause: StreamCause) -> &'static [u8]
    ensures text { result.now ≡ cause_words cause }
    ensures short { length result.now ≤ 13 }
{
    match cause {
        StreamCause::BlockCount => b"40 BlockCount",
        StreamCause::DcRange => b"41 DcRange",
        StreamCause::DiffRange => b"42 DiffRange",
        StreamCause::NoCode => b"43 NoCode",
        StreamCause::Seam { .. } => b"44 Seam",
        StreamCause::StreamBad => b"45 StreamBad",
        StreamCause::PlaceBad { .. } => b"48 PlaceBad",
    }
}
