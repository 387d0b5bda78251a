// A sink that keeps nothing.
ghost use Rattle.std.specs.Prelude.{None};
ghost use Rattle.outside_core.specs.Faults.{Never, no_faults};
ghost use Rattle.outside_core.specs.Takes.{Anything};

use outside_core::{Failed, Sink};

/// Takes all bytes, keeps none, and never fails.
#[derive(Clone, Copy)]
pub(crate) struct Nowhere;

impl Sink for Nowhere {
    ghost held = { λ s. None };

    ghost faults = { no_faults };

    ghost full = { Never };

    ghost takes = { Anything };

    fn write(&mut self, bytes: &[u8]) -> Result<usize, Failed> {
        Ok(bytes.len())
    }
}
