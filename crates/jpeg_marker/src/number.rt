// Numbers of two bytes, the high one first (ITU-T T.81, B.1.1.1).
ghost use Rattle.std.specs.Prelude.{◌≡◌, ◌≤◌, length};
ghost use Rattle.jpeg_marker.specs.MarkerSegments.{number_at};

use byteorder::{BigEndian, ByteOrder};

/// The number in the first two bytes.
pub(crate) fn number_at(bytes: &[u8]) -> u16
    requires { 2 ≤ length bytes.now }
    ensures { result ≡ number_at bytes.now }
{
    BigEndian::read_u16(bytes)
}
