// What follows the MCUs of an interval.
ghost use Rattle.std.specs.Prelude.{◌≡◌, ◌+◌, ◌≤◌, [], ◌++◌, length};
ghost use Rattle.bit_list.specs.Pieces.{piece_room};
ghost use Rattle.scan_spec.specs.Scans.{restart_marker};

use bit_list::{BitOut, Piece};

/// The marker of an interval (ITU-T T.81, E.1.4), if no byte is begun.
#[inline]
pub(crate) fn restart(number: u32, output: &mut BitOut, out: &mut Piece)
    requires whole { output.old ≡ [] }
    requires room { length out.old + 2 ≤ piece_room }
    ensures bytes { out.new ≡ out.old ++ restart_marker number }
    ensures none { output.new ≡ [] }
{
    output.mark(0xd0 + (number % 8) as u8, out);
}
