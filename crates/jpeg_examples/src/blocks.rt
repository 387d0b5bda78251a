// Values from the tables and figures of ITU-T T.81.
ghost use Rattle.std.specs.Prelude.{◌≡◌, ◌<◌, ◌∷◌, []};
ghost use Rattle.coef_block.specs.BlockRows.{width, height, extents_of};

use coef_block::{Block, Rows, natural_position, natural_positions, size};
use std::process::Abort;

// The zigzag index at each row and column, as Figure A.6 prints it.
const FIGURE: [[usize; 8]; 8] = [
    [0, 1, 5, 6, 14, 15, 27, 28],
    [2, 4, 7, 13, 16, 26, 29, 42],
    [3, 8, 12, 17, 25, 30, 41, 43],
    [9, 11, 18, 24, 31, 40, 44, 53],
    [10, 19, 23, 32, 39, 45, 52, 54],
    [20, 22, 33, 38, 46, 51, 55, 60],
    [21, 34, 37, 47, 50, 56, 59, 61],
    [35, 36, 48, 49, 57, 58, 62, 63],
];

#[test]
fn positions_are_those_of_the_figure(rt: HostRuntime) {
    for (row, indexes) in FIGURE.iter().enumerate() {
        for (column, index) in indexes.iter().enumerate() {
            assert!(rt; is_at(*index, 8 * row + column), "at {index}");
        }
    }
}

fn is_at(index: usize, position: usize) -> bool {
    index < 64
        && natural_position(index) == position
        && usize::from(natural_positions()[index]) == position
}

// Table F.1 ends at 2047; 32767 and the least number have the bits that its rule gives.
const CATEGORIES: &[(i32, u8)] = &[
    (0, 0),
    (1, 1),
    (-1, 1),
    (2, 2),
    (-4, 3),
    (1023, 10),
    (1024, 11),
    (-2047, 11),
    (32767, 15),
    (i32::MIN, 32),
];

#[test]
fn categories(rt: HostRuntime) {
    for (x, bits) in CATEGORIES {
        assert!(rt; size(*x) == *bits, "at {x}");
    }
}

#[test]
fn first_and_last_coefficient(rt: HostRuntime) {
    let mut block = Block::zero();
    block.set(0, -32767);
    block.set(63, 1023);
    assert!(rt; block.get(0) == -32767 && block.get(1) == 0);
    assert!(rt; block.get(62) == 0 && block.get(63) == 1023);
    let kept = block;
    block.set(63, -1023);
    assert!(rt; kept.get(63) == 1023 && block.get(63) == -1023);
    assert!(rt; kept != block);
}

#[test]
fn nonzero_coefficients(rt: HostRuntime) {
    let mut block = Block::zero();
    assert!(rt; block.nonzeros() == 0);
    // Zigzag indexes 0, 2, 3 and 63.
    block.set(0, 7);
    block.set(8, -1);
    block.set_in_zigzag(3, 2);
    block.set(63, 1);
    assert!(rt; block.get(16) == 2);
    assert!(rt; block.nonzeros() == 0x8000_0000_0000_000d);
    assert!(rt; block.nonzeros_among(0b0110) == 1 && block.nonzeros_among(u64::MAX) == 4);
    block.set_in_zigzag(2, 0);
    assert!(rt; block.nonzeros() == 0x8000_0000_0000_0009);
}

// The DC of a block that may be there; 0 if it isn't.
fn dc_of(block: Option<&Block>) -> i16 {
    match block {
        Some(block) => block.get(0),
        None => 0,
    }
}

// Whether the DCs above, to the left and diagonally are these.
fn is_amid(rows: &Rows, component: usize, row: u32, column: u32, around: [i16; 3]) -> bool
    requires component { component < 4 }
    requires row { row < height rows.now.extents component }
    requires column { column < width rows.now.extents component }
{
    dc_of(rows.above(component, row, column)) == around[0]
        && dc_of(rows.left(component, row, column)) == around[1]
        && dc_of(rows.diagonal(component, row, column)) == around[2]
}

// The DCs around are these; then a block with this DC is stored.
fn visit(
    rt: &impl Abort,
    rows: &mut Rows,
    component: usize,
    row: u32,
    column: u32,
    around: [i16; 3],
    dc: u8,
)
    requires component { component < 4 }
    requires row { row < height rows.old.extents component }
    requires column { column < width rows.old.extents component }
    ensures { rows.new.extents ≡ rows.old.extents }
{
    assert!(rt; is_amid(rows, component, row, column, around), "at {dc}");
    let mut block = Block::zero();
    block.set(0, i16::from(dc));
    rows.store(component, row, column, &block);
}

// The six blocks of a 4:2:0 MCU in turn, with the DCs from `dc` on.
fn visit_mcu(rt: &impl Abort, rows: &mut Rows, dc: u8, around: &[[i16; 3]; 6])
    requires extents { rows.old.extents ≡ extents_of (2 ∷ 1 ∷ 1 ∷ []) (2 ∷ 1 ∷ 1 ∷ []) }
    requires few { dc < 100 }
    ensures { rows.new.extents ≡ rows.old.extents }
{
    visit(rt, rows, 0, 0, 0, around[0], dc);
    visit(rt, rows, 0, 0, 1, around[1], dc + 1);
    visit(rt, rows, 0, 1, 0, around[2], dc + 2);
    visit(rt, rows, 0, 1, 1, around[3], dc + 3);
    visit(rt, rows, 1, 0, 0, around[4], dc + 4);
    visit(rt, rows, 2, 0, 0, around[5], dc + 5);
}

// The DCs above, to the left and diagonally of each block of an MCU: of two MCU rows of a segment, and of the first of
// the next.
const FIRST: [[i16; 3]; 6] = [
    [0, 0, 0],
    [0, 1, 0],
    [1, 0, 0],
    [2, 3, 1],
    [0, 0, 0],
    [0, 0, 0],
];

const SECOND: [[i16; 3]; 6] = [
    [3, 0, 0],
    [4, 7, 3],
    [7, 0, 0],
    [8, 9, 7],
    [5, 0, 0],
    [6, 0, 0],
];

const NEXT: [[i16; 3]; 6] = [
    [0, 0, 0],
    [0, 13, 0],
    [13, 0, 0],
    [14, 15, 13],
    [0, 0, 0],
    [0, 0, 0],
];

// MCU rows of one 4:2:0 MCU.
#[test]
fn neighbours_of_blocks(rt: HostRuntime) {
    let mut rows = Rows::new(rt.alloc(), &[2, 1, 1], &[2, 1, 1]).expect(&rt, "memory");
    assert!(rt; rows.room() == 6);
    visit_mcu(&rt, &mut rows, 1, &FIRST);
    rows.next_row();
    visit_mcu(&rt, &mut rows, 7, &SECOND);
    rows.clear();
    visit_mcu(&rt, &mut rows, 13, &NEXT);
}
