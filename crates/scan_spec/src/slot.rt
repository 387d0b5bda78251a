// A block's slot in an MCU.
use huff_table::ComponentCodes;

/// A block of an MCU: its component's index in the frame, from 0 to 3, and the code words of that component's tables
/// (ITU-T T.81, A.2.3, B.2.3).
#[derive(Clone, Copy)]
pub struct Slot {
    pub component: usize,
    pub codes: ComponentCodes,
}
