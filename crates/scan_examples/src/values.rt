// Blocks by their coefficients that aren't 0.
use coef_block::{Block, natural_position};
use scan_spec::MOST_SLOTS;
use std::process::Abort;

// The number of a block in the scan, a zigzag index, and the coefficient there.
pub(crate) type Value = (usize, usize, i16);

// The blocks of an MCU, of which the first has this number; zeros follow the last.
pub(crate) fn mcu_of(
    rt: &impl Abort,
    first: usize,
    count: usize,
    values: &[Value],
) -> [Block; MOST_SLOTS] {
    assert!(rt; count <= MOST_SLOTS);
    let mut blocks = [Block::zero(); MOST_SLOTS];
    for (number, index, value) in values {
        if *number >= first && *number - first < count {
            put(rt, &mut blocks[*number - first], *index, *value);
        }
    }
    blocks
}

// Puts a coefficient at a zigzag index.
pub(crate) fn put(rt: &impl Abort, block: &mut Block, index: usize, value: i16) {
    assert!(rt; index < 64);
    assert!(rt; value.unsigned_abs() <= if index == 0 { 32767 } else { 1023 });
    block.set(natural_position(index), value);
}
