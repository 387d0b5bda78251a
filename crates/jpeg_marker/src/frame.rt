// The frame of a header (ITU-T T.81, B.2.2).
use crate::number::number_at;
use crate::parameters::FrameComponent;
use crate::refusal::HeaderRefusal;
use crate::table::distinct;
use std::marker::Model;

/// A frame: lines, samples in a line, and one to four components.
#[derive(Clone, Copy)]
pub(crate) struct Frame {
    height: u16,
    width: u16,
    parts: [FrameComponent; 4],
    count: usize,
}

impl Model for Frame {
    ghost use Rattle.jpeg_marker.specs.Frames.{FrameFields};
    ghost use Rattle.std.specs.Prelude.{refl};

    ghost Value = { FrameFields };

    ghost use Rattle.jpeg_marker.specs.FrameInside.{frame_fields, IsFrameInside, frame_inside};

    ghost view = { frame_fields };

    ghost invariant = { IsFrameInside };

    ghost inverse = { frame_inside };

    ghost inverse_ok = { λ a h. let e = h.room in Prim.rw (e, ← h.blank) refl };
}

impl Frame {
    ghost use Rattle.std.specs.Prelude.{◌≡◌};
    ghost use Rattle.jpeg_marker.specs.Frames.{IsFrame};

    pub(crate) fn height(&self) -> u16
        ensures { result ≡ self.now.height }
    {
        self.height
    }

    pub(crate) fn width(&self) -> u16
        ensures { result ≡ self.now.width }
    {
        self.width
    }

    pub(crate) fn parts(&self) -> &[FrameComponent]
        ensures value { result.now ≡ self.now.parts }
        ensures kept { IsFrame self.now }
    {
        &self.parts[..self.count]
    }
}

ghost use Rattle.std.specs.Prelude.{◌≡◌, ◌≤◌, ◌+◌, ◌-◌, ◌*◌, ◌++◌, length, take, replicate, map, sum_by, slice_index, drop, IfOk, OnOk, None};
ghost use Rattle.std.specs.List.{list_all};
ghost use Rattle.jpeg_marker.specs.MarkerSegments.{number_at};
ghost use Rattle.jpeg_marker.specs.HeaderRefusals.{fault_in};
ghost use Rattle.jpeg_marker.specs.Frames.{no_part, frame_at, frame_fault, numbers_fault, parts_of, is_sampled, area, fit_an_mcu, are_components};

/// Parses a frame header (SOF0). `body` is what follows the length field, which is at place `at`.
pub(crate) fn read_frame(body: &[u8], at: usize) -> Result<Frame, HeaderRefusal>
    ensures fault { fault_in result ≡ frame_fault None at body.now }
    ensures found { IfOk result (λ frame. frame ≡ frame_at body.now) }
{
    check_numbers(body, at)?;
    let listed = list_parts(&body[6..]);
    if !are_components(&listed.parts[..listed.count], &listed.ids[..listed.count]) {
        return Err(HeaderRefusal::ComponentsBad);
    }
    Ok(Frame {
        height: number_at(&body[1..]),
        width: number_at(&body[3..]),
        parts: listed.parts,
        count: listed.count,
    })
}

// Checks all but the components.
fn check_numbers(body: &[u8], at: usize) -> Result<(), HeaderRefusal>
    ensures fault { fault_in result ≡ numbers_fault at body.now }
    ensures size { OnOk result (length body.now ≡ 6 + 3 * slice_index body.now 5) }
    ensures some { OnOk result (1 ≤ slice_index body.now 5) }
    ensures high { OnOk result (1 ≤ number_at (drop 1 body.now)) }
    ensures wide { OnOk result (1 ≤ number_at (drop 3 body.now)) }
    ensures few { OnOk result (slice_index body.now 5 ≤ 4) }
{
    if body.len() < 6 || body.len() != 6 + 3 * usize::from(body[5]) {
        return Err(HeaderRefusal::LengthBad { place: at });
    }
    if body[0] != 8 {
        return Err(HeaderRefusal::PrecisionBad);
    }
    if number_at(&body[1..]) == 0 || number_at(&body[3..]) == 0 {
        return Err(HeaderRefusal::SizeZero);
    }
    if body[5] < 1 || body[5] > 4 {
        return Err(HeaderRefusal::ComponentsBad);
    }
    Ok(())
}

// Components, and their identifiers once more.
#[derive(Drop)]
struct Listed {
    parts: [FrameComponent; 4],
    ids: [u8; 4],
    count: usize,
}

// The components in these bytes.
fn list_parts(fields: &[u8]) -> Listed
    requires { length fields.now ≤ 12 }
    ensures parts { take result.count result.parts ≡ parts_of fields.now }
    ensures ids { take result.count result.ids ≡ map (λ p. p.id) (parts_of fields.now) }
    ensures few { 3 * result.count ≤ length fields.now }
    ensures all { length fields.now ≤ 3 * result.count + 2 }
    ensures blank { result.parts
        ≡ take result.count result.parts ++ replicate (4 - result.count) no_part }
{
    let mut parts = [FrameComponent { id: 0, h: 0, v: 0 }; 4];
    let mut ids = [0; 4];
    let mut count = 0;
    let mut rest = fields;
    while let [id, sampling, _, tail @ ..] = rest {
        parts[count] = FrameComponent {
            id: *id,
            h: *sampling / 16,
            v: *sampling % 16,
        };
        ids[count] = *id;
        count += 1;
        rest = tail;
    }
    Listed { parts, ids, count }
}

// Whether these can be a frame's components, given their identifiers.
fn are_components(parts: &[FrameComponent], ids: &[u8]) -> bool
    requires few { length parts.now ≤ 4 }
    requires theirs { ids.now ≡ map (λ p. p.id) parts.now }
    ensures { result ≡ are_components parts.now }
{
    distinct(ids) && are_sampled(parts) && fit_an_mcu(parts)
}

fn fit_an_mcu(parts: &[FrameComponent]) -> bool
    requires { length parts.now ≤ 4 }
    ensures { result ≡ fit_an_mcu parts.now }
{
    parts.len() == 1 || blocks_in(parts) <= 10
}

fn are_sampled(parts: &[FrameComponent]) -> bool
    ensures { result ≡ list_all is_sampled parts.now }
{
    parts.iter().all(is_sampled)
}

fn is_sampled(part: &FrameComponent) -> bool
    ensures { result ≡ is_sampled part.now }
{
    1 <= part.h && part.h <= 4 && 1 <= part.v && part.v <= 4
}

/// How many blocks an MCU has that holds them all.
pub(crate) fn blocks_in(parts: &[FrameComponent]) -> u32
    requires { length parts.now ≤ 4 }
    ensures { result ≡ sum_by area parts.now }
{
    let mut blocks = 0;
    for part in parts {
        blocks += u32::from(part.h) * u32::from(part.v);
    }
    blocks
}
