// Why there are no more bytes of a segment, by the cause that stopped them.
ghost use Rattle.std.specs.Prelude.{◌≡◌, Err, ⊤};
ghost use Rattle.container_spec.specs.Segments.{fault_cause, stop_cause};

use block_spec::BlockFault;
use handover::StreamCause;
use scan_spec::WriteStop;

/// The cause of a fault in reading blocks.
pub(crate) fn read_cause(fault: BlockFault) -> StreamCause
    ensures { fault_cause {A = ⊤} (Err fault) ≡ Err result }
{
    match fault {
        BlockFault::BlockCount => StreamCause::BlockCount,
        BlockFault::DcRange => StreamCause::DcRange,
    }
}

/// The cause of a stop in writing them.
pub(crate) fn write_cause(stop: WriteStop) -> StreamCause
    ensures { stop_cause {A = ⊤} (Err stop) ≡ Err result }
{
    match stop {
        WriteStop::NoCode => StreamCause::NoCode,
        WriteStop::DiffRange => StreamCause::DiffRange,
    }
}
