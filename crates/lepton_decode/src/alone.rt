// A container decoded on one thread.
ghost use Rattle.std.specs.Prelude.{◌≡◌, ◌≤◌, IfOk, IsErrOf, false, true};
ghost use Rattle.box_format.specs.declared.refusal.BoxRefusal.{BoxRefusal};
ghost use Rattle.outside_core.specs.Takes.{TakesNext};
ghost use Rattle.box_format.specs.Containers.{IsContainer};
ghost use Rattle.box_format.specs.Checks.{IsRefused};
ghost use Rattle.lepton_decode.specs.Ends.{Ends, lone_meaning_in};

use crate::error::DecodeError;
use crate::playing::{Lone, play_alone};
use crate::portion::meant;
use box_format::{BoxRefusal, FileView, ReadError, read_container};
use outside_core::{Gate, Sink};
use std::alloc::Global;
use std::marker::Model;

/// A container that is ready to be decoded on one thread, once: its scans, and all the memory that decoding needs.
///
/// Clauses see its scans, and whether it was decoded.
#[derive(Drop)]
pub struct ReadyAlone<'a> {
    pub(crate) view: FileView<'a>,
    pub(crate) lone: Lone<'a>,
    pub(crate) used: bool,
}

impl<'a> Model for ReadyAlone<'a> {
    ghost use Rattle.lepton_decode.specs.Ends.{AloneSeen};
    ghost use Rattle.lepton_decode.specs.AloneInside.{alone_of, IsReadyAlone};

    ghost Value = { AloneSeen };

    ghost view = { alone_of };

    ghost invariant = { IsReadyAlone };
}

impl<'a> ReadyAlone<'a> {
    /// Whether it was decoded.
    pub fn used(&self) -> bool
        ensures { result ≡ self.now.used }
    {
        self.used
    }
}

/// Reads a container's scans, and allocates all the memory that its decoding on one thread needs: for each scan the
/// bins and an MCU row of blocks, and a piece of bytes.
#[inline(never)]
pub fn prepare_alone(alloc: Global, bytes: &[u8]) -> Result<ReadyAlone<'_>, ReadError>
    ensures ready { IfOk result (λ ready. IsContainer ready.scans bytes.now) }
    ensures fresh { IfOk result (λ ready. ready.used ≡ false) }
    ensures refused { (refusal : BoxRefusal) → IsErrOf result (ReadError.Box refusal)
        → IsRefused bytes.now refusal }
{
    let view = match read_container(alloc, bytes) {
        Ok(view) => view,
        Err(error) => return Err(error),
    };
    let lone = Lone::prepare(alloc, &view)?;
    Ok(ReadyAlone {
        view,
        lone,
        used: false,
    })
}

/// Writes what `run` writes, and answers what it answers, on the calling thread. Nothing in it waits, so it returns, on
/// any container, if the calls of the sink and of the gate return. It allocates nothing.
///
/// At each moment, also while the call is under way, what was written is a prefix of the bytes that the container
/// stands for, since the sink need take nothing else.
///
/// The gate is called before each segment.
#[inline(never)]
pub fn run_alone<K: Sink, G: Gate>(
    ready: &mut ReadyAlone,
    sink: &mut K,
    gate: &G,
) -> Result<u64, DecodeError>
    requires fresh { ready.old.used ≡ false }
    requires takes { TakesNext K.takes sink.old (lone_meaning_in ready.old).bytes }
    ensures ends { Ends K.held K.takes K.faults K.full sink.old sink.new (lone_meaning_in ready.old) result }
    ensures used { ready.new.used ≡ true }
    ensures lasting { K.faults sink.old ≤ K.faults sink.new }
{
    ready.used = true;
    let (kind, portion) = meant(&ready.view);
    play_alone(&ready.view, kind, &portion, &mut ready.lone, sink, gate)
}
