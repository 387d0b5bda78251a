// Pad bits, and what was padded, by plain numbers.
use handover::PadSum;
use scan_spec::Pads;

/// Whether pad bits are given by this byte and this list of one byte, which is 0 if there is no list.
pub(crate) fn are_told(pads: &Pads, wanted: (u8, u8)) -> bool {
    match *pads {
        Pads::All(bit) => wanted == (u8::from(bit), 0),
        Pads::Each(list) => wanted.0 == 2 && list == [wanted.1].as_slice(),
    }
}

/// 1 where a bit of 1 was padded, 2 more where a bit of 0 was, and 4 more where a 0 of the list is in vain.
pub(crate) fn number_of(pads: &PadSum) -> u8 {
    u8::from(pads.one) + 2 * u8::from(pads.zero) + 4 * u8::from(pads.vain)
}
