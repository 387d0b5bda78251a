// What the segments before a scan say (ITU-T T.81, B.2.4).
ghost use Rattle.std.specs.Prelude.{ℕ, ◌≡◌, ◌<◌, ◌+◌, ◌^◌, ◌∷◌, [], length, OnOk, Some};
ghost use Rattle.jpeg_marker.specs.HeaderRefusals.{fault_in};
ghost use Rattle.jpeg_marker.specs.GoodSegments.{segment_fault, interval_fault, known_after};
ghost use Rattle.jpeg_marker.specs.Frames.{frame_at, frame_fault};
ghost use Rattle.jpeg_marker.specs.MarkerSegments.{number_at};
ghost use Rattle.jpeg_marker.specs.Walks.{nothing_known};

use crate::frame::{Frame, read_frame};
use crate::number::number_at;
use crate::refusal::HeaderRefusal;
use crate::table::RawTable;
use crate::tables::read_tables;

/// What headers say up to a place: the frame, the tables of both classes, four numbers to a class, and the restart
/// interval; and of the scans up to there, which components they had and how many blocks.
#[derive(Clone, Copy)]
pub(crate) struct Definitions {
    pub(crate) frame: Option<Frame>,
    pub(crate) tables: [Option<RawTable>; 8],
    pub(crate) interval: u16,
    // By the component's index in the frame.
    pub(crate) coded: [bool; 4],
    pub(crate) blocks: u32,
}

impl Definitions {
    /// What is known before any segment.
    pub(crate) fn new() -> Definitions
        ensures { result ≡ nothing_known }
    {
        Definitions {
            frame: None,
            tables: [None; 8],
            interval: 0,
            coded: [false; 4],
            blocks: 0,
        }
    }

    /// A copy.
    pub(crate) fn again(&self) -> Definitions
        ensures same { result ≡ self.now }
        ensures kept { result ≡ known_after self.now [] }
    {
        // Says to the proof how many tables are kept.
        let _tables = &self.tables[..];
        *self
    }

    /// Adds what a segment says that is no scan's. Its length is at place `at`.
    #[inline(never)]
    pub(crate) fn take(&mut self, code: u8, body: &[u8], at: usize) -> Result<(), HeaderRefusal>
        requires room { at + 2 + length body.now < 2 ^ 64 }
        ensures fault { fault_in result ≡ segment_fault self.old at code body.now }
        ensures kept { OnOk result ((fill : ℕ) → self.new ≡ known_after self.old
            (record { fill = fill; code = code; body = body.now } ∷ [])) }
    {
        match code {
            0xc0 => take_frame(&mut self.frame, body, at),
            0xc4 => read_tables(&mut self.tables, body, at),
            0xdd => take_interval(&mut self.interval, body, at),
            _ => Ok(()),
        }
    }
}

// Adds the first frame.
fn take_frame(frame: &mut Option<Frame>, body: &[u8], at: usize) -> Result<(), HeaderRefusal>
    ensures fault { fault_in result ≡ frame_fault frame.old at body.now }
    ensures taken { OnOk result (frame.new ≡ Some (frame_at body.now)) }
{
    if frame.is_some() {
        return Err(HeaderRefusal::FrameTwice);
    }
    *frame = Some(read_frame(body, at)?);
    Ok(())
}

// Adds a restart interval.
fn take_interval(interval: &mut u16, body: &[u8], at: usize) -> Result<(), HeaderRefusal>
    ensures fault { fault_in result ≡ interval_fault at body.now }
    ensures taken { OnOk result (interval.new ≡ number_at body.now) }
{
    if body.len() != 2 {
        return Err(HeaderRefusal::LengthBad { place: at });
    }
    *interval = number_at(body);
    Ok(())
}
