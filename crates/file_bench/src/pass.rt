// One pass over a scan.
ghost use Rattle.std.specs.Prelude.{◌≡◌};
ghost use Rattle.huff_table.specs.ComponentTables.{codes_of};

use bit_list::Piece;
use coef_block::Block;
use huff_table::PlanCodes;
use jpeg_marker::Plan;
use scan_decode::Reader;
use scan_spec::{MOST_SLOTS, Pads};
use scan_write::{Writer, mcu_room};
use std::alloc::Global;

/// What a pass comes to: the bytes of the scan, its MCUs, and the bit of the first padding that has bits, 1 if none has.
#[derive(Clone, Copy)]
pub(crate) struct Passed {
    pub(crate) bytes: usize,
    pub(crate) mcus: u32,
    pub(crate) pad: bool,
}

/// Reads the scan of these bytes, unless it is refused.
pub(crate) fn read(alloc: Global, plan: &Plan, codes: &PlanCodes, bytes: &[u8]) -> Option<Passed>
    requires { codes.now ≡ codes_of plan.now.components }
{
    let start = plan.header_length();
    let codes = codes.copied(alloc).ok()?;
    let mut reader = Reader::start(alloc, plan, codes, bytes, start);
    let mut blocks = [Block::zero(); MOST_SLOTS];
    let mut pad = None;
    for _ in 0..plan.mcus() {
        if reader.at_end() {
            return None;
        }
        let count = reader.mcu_blocks();
        reader.next_mcu(&mut blocks[..count]).ok()?;
        pad = pad.or(reader.pad());
    }
    Some(Passed {
        bytes: reader.end().wrapping_sub(start),
        mcus: plan.mcus(),
        pad: pad.unwrap_or(true),
    })
}

/// Reads and writes it, unless it is refused or what is written differs.
pub(crate) fn both(
    alloc: Global,
    plan: &Plan,
    codes: &PlanCodes,
    bytes: &[u8],
    pad: bool,
) -> Option<Passed>
    requires { codes.now ≡ codes_of plan.now.components }
{
    let start = plan.header_length();
    let mut reader = Reader::start(alloc, plan, codes.copied(alloc).ok()?, bytes, start);
    let mut writer = Writer::start(plan, codes.copied(alloc).ok()?, Pads::All(pad));
    let mut piece = Piece::new(alloc).ok()?;
    let mut blocks = [Block::zero(); MOST_SLOTS];
    let mut rest = bytes.get(start..)?;
    for _ in 0..plan.mcus() {
        if reader.at_end() {
            return None;
        }
        if piece.free() < mcu_room() {
            rest = after(rest, &mut piece)?;
        }
        let count = reader.mcu_blocks();
        let out = &mut blocks[..count];
        reader.next_mcu(out).ok()?;
        put(&mut writer, out, &mut piece)?;
    }
    rest = after(rest, &mut piece)?;
    let end = bytes.len().checked_sub(rest.len())?;
    (end == reader.end()).then_some(Passed {
        bytes: end.wrapping_sub(start),
        mcus: plan.mcus(),
        pad,
    })
}

// Writes an MCU, if one is due and there is room for it.
fn put(writer: &mut Writer, mcu: &[Block], piece: &mut Piece) -> Option<()> {
    if writer.at_end() {
        return None;
    }
    if writer.mcu_blocks() != mcu.len() {
        return None;
    }
    if piece.free() < mcu_room() {
        return None;
    }
    writer.mcu(mcu, piece).ok()
}

// What follows the bytes of a piece, if they are the next ones. The piece is empty then.
fn after<'a>(bytes: &'a [u8], piece: &mut Piece) -> Option<&'a [u8]> {
    let rest = bytes.strip_prefix(piece.bytes())?;
    piece.clear();
    Some(rest)
}
