// Parts of worked containers (docs/FORMAT.md).

// A record: nothing begun, two, three, four or six bits, one restart marker or two before; and a stream of three bytes,
// or of the five that four blocks take, or of eight.
pub(crate) const START: &[u8] = b"\0\0\0\0\0\0\0\0\0\0\0\0\0\0\0\0\0\0\0\0\0\x03";

pub(crate) const START_OF_EIGHT: &[u8] = b"\0\0\0\0\0\0\0\0\0\0\0\0\0\0\0\0\0\0\0\0\0\x08";

pub(crate) const START_OF_FIVE: &[u8] = b"\0\0\0\0\0\0\0\0\0\0\0\0\0\0\0\0\0\0\0\0\0\x05";

pub(crate) const TWO_BITS: &[u8] = b"\0\x02\0\0\0\0\0\0\0\0\0\0\0\0\0\0\0\0\0\0\0\x03";

pub(crate) const THREE_BITS: &[u8] = b"\0\x03\0\0\0\0\0\0\0\0\0\0\0\0\0\0\0\0\0\0\0\x03";

pub(crate) const FOUR_BITS: &[u8] = b"\0\x04\0\0\0\0\0\0\0\0\0\0\0\0\0\0\0\0\0\0\0\x03";

pub(crate) const SIX_BITS: &[u8] = b"\0\x06\0\0\0\0\0\0\0\0\0\0\0\0\0\0\0\0\0\0\0\x03";

pub(crate) const ONE_MARKER: &[u8] = b"\0\0\0\0\0\0\0\0\0\0\0\0\0\x01\0\0\0\0\0\0\0\x03";

pub(crate) const TWO_MARKERS: &[u8] = b"\0\0\0\0\0\0\0\0\0\0\0\0\0\x02\0\0\0\0\0\0\0\x03";

// A place in the file: of the scan's end, which is the last field of version 5, or of a segment's first byte, which
// ends a record there.
pub(crate) const AT_69: &[u8] = b"\0\0\0\0\0\0\0\x45";

pub(crate) const AT_70: &[u8] = b"\0\0\0\0\0\0\0\x46";

pub(crate) const AT_71: &[u8] = b"\0\0\0\0\0\0\0\x47";

pub(crate) const AT_75: &[u8] = b"\0\0\0\0\0\0\0\x4b";

pub(crate) const AT_78: &[u8] = b"\0\0\0\0\0\0\0\x4e";

pub(crate) const AT_81: &[u8] = b"\0\0\0\0\0\0\0\x51";

pub(crate) const AT_82: &[u8] = b"\0\0\0\0\0\0\0\x52";

// Headers of one component, 8 by 8, 8 by 16 and 8 by 32 samples, with one code word in each table; and of one of 8 by
// 24, or 8 by 16, with a restart after each MCU.
pub(crate) const HEADER: &[u8] = b"\xff\xd8\xff\xc0\0\x0b\x08\0\x08\0\x08\x01\x01\x11\0\
    \xff\xc4\0\x14\0\x01\0\0\0\0\0\0\0\0\0\0\0\0\0\0\0\0\
    \xff\xc4\0\x14\x10\x01\0\0\0\0\0\0\0\0\0\0\0\0\0\0\0\0\
    \xff\xda\0\x08\x01\x01\0\0\x3f\0";

pub(crate) const HIGHER: &[u8] = b"\xff\xd8\xff\xc0\0\x0b\x08\0\x10\0\x08\x01\x01\x11\0\
    \xff\xc4\0\x14\0\x01\0\0\0\0\0\0\0\0\0\0\0\0\0\0\0\0\
    \xff\xc4\0\x14\x10\x01\0\0\0\0\0\0\0\0\0\0\0\0\0\0\0\0\
    \xff\xda\0\x08\x01\x01\0\0\x3f\0";

pub(crate) const HIGHEST: &[u8] = b"\xff\xd8\xff\xc0\0\x0b\x08\0\x20\0\x08\x01\x01\x11\0\
    \xff\xc4\0\x14\0\x01\0\0\0\0\0\0\0\0\0\0\0\0\0\0\0\0\
    \xff\xc4\0\x14\x10\x01\0\0\0\0\0\0\0\0\0\0\0\0\0\0\0\0\
    \xff\xda\0\x08\x01\x01\0\0\x3f\0";

pub(crate) const WITH_RESTARTS: &[u8] = b"\xff\xd8\xff\xc0\0\x0b\x08\0\x18\0\x08\x01\x01\x11\0\
    \xff\xc4\0\x14\0\x01\0\0\0\0\0\0\0\0\0\0\0\0\0\0\0\0\
    \xff\xc4\0\x14\x10\x01\0\0\0\0\0\0\0\0\0\0\0\0\0\0\0\0\
    \xff\xdd\0\x04\0\x01\xff\xda\0\x08\x01\x01\0\0\x3f\0";

pub(crate) const TWO_INTERVALS: &[u8] = b"\xff\xd8\xff\xc0\0\x0b\x08\0\x10\0\x08\x01\x01\x11\0\
    \xff\xc4\0\x14\0\x01\0\0\0\0\0\0\0\0\0\0\0\0\0\0\0\0\
    \xff\xc4\0\x14\x10\x01\0\0\0\0\0\0\0\0\0\0\0\0\0\0\0\0\
    \xff\xdd\0\x04\0\x01\xff\xda\0\x08\x01\x01\0\0\x3f\0";

// 8 by 96 samples, a restart after four MCUs, and differences of 0 and of 1.
pub(crate) const THREE_INTERVALS: &[u8] = b"\xff\xd8\xff\xc0\0\x0b\x08\0\x60\0\x08\x01\x01\x11\0\
    \xff\xc4\0\x15\0\x02\0\0\0\0\0\0\0\0\0\0\0\0\0\0\0\0\x01\
    \xff\xc4\0\x14\x10\x01\0\0\0\0\0\0\0\0\0\0\0\0\0\0\0\0\
    \xff\xdd\0\x04\0\x04\xff\xda\0\x08\x01\x01\0\0\x3f\0";

// 8 by 512 samples.
pub(crate) const SIXTY_FOUR_HIGH: &[u8] = b"\xff\xd8\xff\xc0\0\x0b\x08\x02\0\0\x08\x01\x01\x11\0\
    \xff\xc4\0\x14\0\x01\0\0\0\0\0\0\0\0\0\0\0\0\0\0\0\0\
    \xff\xc4\0\x14\x10\x01\0\0\0\0\0\0\0\0\0\0\0\0\0\0\0\0\
    \xff\xda\0\x08\x01\x01\0\0\x3f\0";

pub(crate) const TRAILER: &[u8] = b"\xff\xd9";

pub(crate) const ZEROS: &[u8] = b"\0\0\0";

pub(crate) const FIVE_ZEROS: &[u8] = b"\0\0\0\0\0";
