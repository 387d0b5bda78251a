// Rows of MCUs that are read, and written, from what those before hand over.
ghost use Rattle.std.specs.Prelude.{◌≡◌, ◌*◌, ◌<◌};
ghost use Rattle.huff_table.specs.ComponentTables.{codes_of};
ghost use Rattle.scan_spec.specs.Slots.{shape_of};
ghost use Rattle.cut_spec.specs.RowHandovers.{markers_before};

use crate::headers::{
    END, FIVE_HIGH, FOUR_HIGH, Header, LEVEL, ONES, ONES_AND_END, STEPS, THREE_HIGH, TWO_HIGH,
    append, header_of, planned,
};
use crate::pads::are_for;
use bit_list::Piece;
use coef_block::Block;
use handover::Handover;
use huff_table::PlanCodes;
use jpeg_marker::Plan;
use scan_decode::Reader;
use scan_spec::{MOST_SLOTS, Pads};
use scan_write::{Writer, mcu_room};
use std::alloc::Global;
use std::process::Abort;

// A row of MCUs, how many bytes those before complete, and what they hand over: the byte begun, its bits, the first DC
// and the restart markers. The other DCs are 0.
type Seam = (u32, usize, (u8, u8, i16, u32));

// The segments of a header, the bytes after it, the pad bits, and a row's seam.
const SEAMS: &[(Header, &[u8], Pads<'static>, Seam)] = &[
    // The scan's start.
    (
        [TWO_HIGH, STEPS, END, 0],
        b"\xc7",
        Pads::All(true),
        (0, 0, (0, 0, 0, 0)),
    ),
    // In mid-byte, also before the last bits of one that is stuffed.
    (
        [TWO_HIGH, STEPS, END, 0],
        b"\xc7",
        Pads::All(true),
        (1, 0, (0xc0, 3, 1, 0)),
    ),
    (
        [FOUR_HIGH, ONES, ONES_AND_END, 0],
        b"\xff\0",
        Pads::All(true),
        (3, 0, (0xfc, 6, 0, 0)),
    ),
    // After a whole byte.
    (
        [FIVE_HIGH, LEVEL, END, 0],
        b"\0\x3f",
        Pads::All(true),
        (4, 1, (0, 0, 0, 0)),
    ),
    // After a restart marker, and after two.
    (
        [TWO_HIGH, STEPS, END, 1],
        b"\xdf\xff\xd0\xdf",
        Pads::All(true),
        (1, 3, (0, 0, 0, 1)),
    ),
    (
        [THREE_HIGH, LEVEL, END, 1],
        b"\x3f\xff\xd0\x3f\xff\xd1\x3f",
        Pads::All(true),
        (2, 6, (0, 0, 0, 2)),
    ),
    // Each interval is padded with its own bit, by its number in the scan.
    (
        [TWO_HIGH, STEPS, END, 1],
        b"\xdf\xff\xd0\xc0",
        Pads::Each(b"\x80"),
        (1, 3, (0, 0, 0, 1)),
    ),
    (
        [THREE_HIGH, LEVEL, END, 1],
        b"\0\xff\xd0\0\xff\xd1\x3f",
        Pads::Each(b"\x20"),
        (2, 6, (0, 0, 0, 2)),
    ),
];

#[test]
fn rows_are_read_from_handovers(rt: HostRuntime) {
    for (header, scan, _, seam) in SEAMS {
        let mut bytes = header_of(&rt, rt.alloc(), *header);
        let start = bytes.len();
        append(&rt, &mut bytes, scan);
        let plan = planned(&rt, &bytes);
        assert!(rt;
            goes_on(&rt, rt.alloc(), &plan, &bytes, start, *seam),
            "{scan:?}"
        );
    }
}

#[test]
fn rows_are_written_from_handovers(rt: HostRuntime) {
    for (header, scan, pads, seam) in SEAMS {
        let mut bytes = header_of(&rt, rt.alloc(), *header);
        let start = bytes.len();
        append(&rt, &mut bytes, scan);
        let plan = planned(&rt, &bytes);
        assert!(rt;
            is_written_on(&rt, rt.alloc(), &plan, &bytes, start, *pads, seam.0),
            "{scan:?}"
        );
    }
}

// Whether a writer that starts from what a reader hands over before a row writes the rest of the bytes.
fn is_written_on(
    rt: &impl Abort,
    alloc: Global,
    plan: &Plan,
    bytes: &[u8],
    start: usize,
    pads: Pads,
    row: u32,
) -> bool {
    let codes = PlanCodes::build(alloc, plan).expect(rt, "memory");
    let same = codes.copied(alloc).expect(rt, "memory");
    let mut reader = Reader::start(alloc, plan, codes, bytes, start);
    for _ in 0..row {
        next_block(rt, &mut reader);
    }
    let place = reader.place();
    let mut writer = writer_from(rt, plan, same, &reader, pads, row);
    let mut out = Piece::new(alloc).expect(rt, "memory");
    for _ in row..plan.down() {
        let block = next_block(rt, &mut reader);
        put_block(rt, &mut writer, block, &mut out);
    }
    writer.at_end() && bytes.get(place..) == Some(out.bytes())
}

// A writer from this row on, with what a reader hands over before it.
fn writer_from<'a>(
    rt: &impl Abort,
    plan: &Plan,
    codes: PlanCodes,
    reader: &Reader,
    pads: Pads<'a>,
    row: u32,
) -> Writer<'a>
    requires { codes ≡ codes_of plan.now.components }
{
    let handover = reader.handover();
    assert!(rt; row < plan.down());
    assert!(rt; handover.restarts() == restarts_before(plan, row));
    assert!(rt; are_for(plan, &pads));
    let mut writer = Writer::start(plan, codes, Pads::All(true));
    writer.move_to(plan, handover, row, pads);
    writer
}

// Writes an MCU of one block.
fn put_block(rt: &impl Abort, writer: &mut Writer, block: Block, out: &mut Piece) {
    assert!(rt; !writer.at_end());
    assert!(rt; writer.mcu_blocks() == 1);
    assert!(rt; out.free() >= mcu_room());
    assert!(rt; writer.mcu(&[block], out) == Ok(()));
}

// Whether a reader of the whole scan hands this over before a row, and one that starts from there reads what it reads.
fn goes_on(
    rt: &impl Abort,
    alloc: Global,
    plan: &Plan,
    bytes: &[u8],
    start: usize,
    seam: Seam,
) -> bool {
    let codes = PlanCodes::build(alloc, plan).expect(rt, "memory");
    let same = codes.copied(alloc).expect(rt, "memory");
    let (row, place, fields) = seam;
    let mut whole = Reader::start(alloc, plan, codes, bytes, start);
    for _ in 0..row {
        next_block(rt, &mut whole);
    }
    let mut reader = resumed(rt, alloc, plan, same, bytes, &whole, row);
    is_at(&whole, start, place)
        && has_fields(&whole.handover(), fields)
        && has_fields(&reader.handover(), fields)
        && read_the_same(rt, &mut whole, &mut reader, plan.down().saturating_sub(row))
        && ends_as(&reader, &whole, bytes.len())
}

fn is_at(reader: &Reader, start: usize, place: usize) -> bool {
    reader.place().checked_sub(start) == Some(place)
}

// Whether both readers read the same blocks.
fn read_the_same(rt: &impl Abort, whole: &mut Reader, reader: &mut Reader, rows: u32) -> bool {
    for _ in 0..rows {
        if next_block(rt, whole) != next_block(rt, reader) {
            return false;
        }
    }
    true
}

// A reader from this row on, with what another hands over before it.
fn resumed<'a>(
    rt: &impl Abort,
    alloc: Global,
    plan: &Plan,
    codes: PlanCodes,
    bytes: &'a [u8],
    whole: &Reader,
    row: u32,
) -> Reader<'a>
    requires { codes ≡ codes_of plan.now.components }
{
    let handover = whole.handover();
    assert!(rt; row < plan.down());
    assert!(rt; handover.restarts() == restarts_before(plan, row));
    Reader::at(alloc, plan, codes, bytes, whole.place(), handover, row)
}

// Whether the reader has read all bytes, and hands over what the other does.
fn ends_as(reader: &Reader, whole: &Reader, length: usize) -> bool {
    reader.at_end() && reader.end() == length && is_same(&reader.handover(), &whole.handover())
}

// The next MCU's first block.
fn next_block(rt: &impl Abort, reader: &mut Reader) -> Block {
    let mut blocks = [Block::zero(); MOST_SLOTS];
    assert!(rt; !reader.at_end());
    let out = &mut blocks[..reader.mcu_blocks()];
    assert!(rt; reader.next_mcu(out) == Ok(()));
    blocks[0]
}

fn has_fields(handover: &Handover, fields: (u8, u8, i16, u32)) -> bool {
    let (partial, bits, dc, restarts) = fields;
    handover.partial() == partial
        && handover.bits() == bits
        && handover.preds() == [dc, 0, 0, 0]
        && handover.restarts() == restarts
}

fn is_same(handover: &Handover, other: &Handover) -> bool {
    handover.partial() == other.partial()
        && handover.bits() == other.bits()
        && handover.preds() == other.preds()
        && handover.restarts() == other.restarts()
}

// How many restart markers come before a row.
fn restarts_before(plan: &Plan, row: u32) -> u32
    requires { row < plan.now.down }
    ensures { result ≡ markers_before (shape_of plan.now) (plan.now.across * row) }
{
    let interval = u32::from(plan.interval());
    if interval == 0 {
        return 0;
    }
    let last = plan.mcus() - 1;
    (plan.across() * row).min(last) / interval
}
