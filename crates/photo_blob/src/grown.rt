// What is written, kept in memory.
ghost use Rattle.std.specs.Prelude.{[], ◌≡◌, None};

use allocation::{NoMemory, extend_from_slice};
use outside_core::{Failed, Sink};
use std::alloc::Global;

/// A list that grows by what is written to it. It fails only if memory runs out, and keeps that error.
#[derive(Drop)]
pub(crate) struct Grown {
    pub(crate) held: Vec<u8>,
    pub(crate) short: Option<NoMemory>,
}

impl Grown {
    /// Nothing is written yet.
    pub(crate) fn new(alloc: Global) -> Grown
        ensures held { result.held.items ≡ [] }
        ensures short { result.short ≡ None }
    {
        Grown {
            held: Vec::new(alloc),
            short: None,
        }
    }
}

impl Sink for Grown {
    ghost use Rattle.std.specs.Prelude.{Some, IsSome, is_some, if◌then◌else◌};
    ghost use Rattle.outside_core.specs.Takes.{Anything};

    ghost held = { λ s. Some s.held.items };

    ghost faults = { λ s. if is_some s.short then 1 else 0 };

    ghost full = { λ s. IsSome s.short };

    ghost takes = { Anything };

    fn write(&mut self, bytes: &[u8]) -> Result<usize, Failed> {
        match extend_from_slice(&mut self.held, bytes) {
            Ok(()) => Ok(bytes.len()),
            Err(short) => {
                self.short = Some(short);
                Err(Failed)
            }
        }
    }
}
