// What a window lets through, written.
ghost use Rattle.std.specs.Prelude.{◌≤◌, IfErr, OnOk};
ghost use Rattle.outside_core.specs.Takes.{TakesNext};
ghost use Rattle.byte_window.specs.Windows.{after, window as passed};
ghost use Rattle.outside_core.specs.Written.{HasFailed, HasWritten};

use byte_window::Window;
use outside_core::{Sink, WriteFault, write_all};

// Writes what the window lets through of bytes that come after `came` others. The error is how many of these were
// written before the sink failed.
pub(crate) fn write_part<K: Sink>(
    sink: &mut K,
    window: Window,
    came: u64,
    bytes: &[u8],
) -> Result<(), u64>
    requires takes { TakesNext K.takes sink.old (passed (after window came) bytes.now) }
    ensures written { OnOk result (HasWritten K.held K.takes K.faults sink.old sink.new
        (passed (after window came) bytes.now)) }
    ensures failed { IfErr result (HasFailed K.held K.faults K.full sink.old sink.new
        (passed (after window came) bytes.now)) }
    ensures lasting { K.faults sink.old ≤ K.faults sink.new }
{
    let part = window.after(came).cut(bytes);
    match write_all(sink, part) {
        Ok(()) => Ok(()),
        Err(WriteFault { written }) => Err(written),
    }
}
