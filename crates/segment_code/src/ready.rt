// A segment of a file that is ready to be coded, with all the memory that this needs.
ghost use Rattle.std.specs.Prelude.{◌≡◌, ◌≤◌, ◌^◌, IfOk, OnOk, IsErrOf};
ghost use Rattle.scan_spec.specs.declared.refusal.ScanRefusal.{ScanRefusal};
ghost use Rattle.segment_code.specs.ReadyParts.{IsEncoderFor, IsReady};
ghost use Rattle.segment_code.specs.ScanPasses.{IsNoPart, IsPart, IsPartStream};

use crate::encoder::SegmentEncoder;
use crate::error::ScanError;
use crate::pads::PadsFound;
use crate::part::SegmentPart;
use allocation::{NoMemory, with_capacity};
use scan_decode::Reader;
use std::alloc::Global;
use std::marker::Model;
use std::mem::replace;

// A stream is about as long as the segment's bytes, and seldom an eighth longer. Of a short segment it may be more.
const LEAST_ROOM: usize = 1 << 16;

/// What a segment takes beside as many bytes as its stream has: the least room of its stream, a copy of the code tables
/// and its reader, about.
pub(crate) const READY_ROOM: usize = LEAST_ROOM + (1 << 15);

// No more is taken beforehand, however long the segment is.
const MOST_ROOM: usize = 1 << 30;

/// A segment of a file's scan with its reader, a list for its pad bits and one for its stream.
///
/// Clauses see `ReadyFields`. `IsReady` holds until it is coded.
#[derive(Drop)]
pub struct ReadyPart<'a> {
    part: SegmentPart<'a>,
    reader: Reader<'a>,
    pads: PadsFound,
    stream: Vec<u8>,
}

impl<'a> Model for ReadyPart<'a> {
    ghost use Rattle.segment_code.specs.ReadyParts.{ReadyFields};
    ghost use Rattle.segment_code.specs.ReadyInside.{ready_in};

    ghost Value = { ReadyFields };

    ghost view = { ready_in };

    ghost invariant = { λ r. Unit {0} };
}

impl<'a> ReadyPart<'a> {
    /// Takes the memory that coding the segment needs beside a `SegmentEncoder`. `length` is how many bytes the segment
    /// has in the file: its stream has room for as many, an eighth more, and 65,536; for 2^30 at most. The one error is
    /// out of memory.
    pub fn prepare(
        alloc: Global,
        part: SegmentPart<'a>,
        length: usize,
    ) -> Result<ReadyPart<'a>, NoMemory>
        requires { IsPart part }
        ensures ready { IfOk result IsReady }
        ensures part { IfOk result (λ ready. ready.part ≡ part.entry) }
    {
        let codes = part.codes.copied(alloc)?;
        let reader = Reader::at(
            alloc,
            part.plan,
            codes,
            part.bytes,
            part.place,
            part.handover,
            part.row,
        );
        let pads = PadsFound::with_room(alloc, part.plan, part.mcus)?;
        let stream = with_capacity(alloc, stream_room(length))?;
        Ok(ReadyPart {
            part,
            reader,
            pads,
            stream,
        })
    }

    /// The segment's stream. Each MCU is read, coded and forgotten. Memory is asked for with the first MCU, by the
    /// reader, and if the stream is longer than its list has room for. If the bytes are no file's, the segment may be refused, or give bytes that mean
    /// nothing. After an error the encoder is of no worth.
    pub fn encode(&mut self, encoder: &mut SegmentEncoder) -> Result<Vec<u8>, ScanError>
        requires ready { IsReady self.old }
        requires encoder { IsEncoderFor self.old.part.plan encoder.old }
        ensures stream { IfOk result (λ stream. IsPartStream self.old.part stream.items) }
        ensures refused { (refusal : ScanRefusal) → IsErrOf result (ScanError.Scan refusal)
            → IsNoPart self.old.part }
        ensures encoder { OnOk result (encoder.new ≡ encoder.old) }
    {
        let alloc = *self.stream.allocator();
        let list = replace(&mut self.stream, Vec::new(alloc));
        encoder.code(
            self.part.plan,
            &mut self.reader,
            &mut self.pads,
            self.part.mcus,
            list,
        )
    }
}

// How many bytes the list for the stream of a segment with `length` bytes has room for.
fn stream_room(length: usize) -> usize
    ensures { result ≤ 2 ^ 30 }
{
    length
        .min(MOST_ROOM)
        .saturating_add(length / 8)
        .saturating_add(LEAST_ROOM)
        .min(MOST_ROOM)
}
