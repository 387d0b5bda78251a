// What the program asks of sources, sinks and watchers.
ghost use Rattle.std.specs.Prelude.{◌≡◌, ℕ, ◌<◌, ◌≤◌, Option, List, length, take, drop, IfOk, OnOk, OnErr};
ghost use Rattle.std.specs.Io.KnownBytes.{Appends, Consumes, IsAtEnd, Keeps};
ghost use Rattle.outside_core.specs.Faults.{Rose};
ghost use Rattle.outside_core.specs.Takes.{MovesOn, TakesNext};

/// A source or a sink failed. It counts the failure; its caller doesn't learn what went wrong.
#[derive(Clone, Copy, Debug, PartialEq, Eq)]
pub struct Failed;

/// Where bytes come from.
pub trait Source {
    /// The bytes left, if contracts see them.
    ghost left: { Self → Option (List ℕ) };

    /// How often it has failed: it rises at a failure alone, and never falls.
    ghost faults: { Self → ℕ };

    /// The count is at its last value. Never, if it has none.
    ghost full: { Self → Type 0 };

    /// It may be read. After a failure nothing says so any more: who reads a source can't try again.
    ghost readable: { Self → Type 0 };

    /// Moves the first `n` bytes left to the start of `buf` and answers `n`, which is 0 only if `buf` is empty or
    /// nothing is left.
    fn read(&mut self, buf: &mut [u8]) -> Result<usize, Failed>
        requires readable { readable self.old }
        ensures count { IfOk result (λ n. n ≤ length buf.old) }
        ensures moved { IfOk result (λ n.
            Consumes (left self.old) (left self.new) (take n buf.new)) }
        ensures rest { IfOk result (λ n. drop n buf.new ≡ drop n buf.old) }
        ensures end { IfOk result (λ n. n ≡ 0 → 0 < length buf.old → IsAtEnd (left self.new)) }
        ensures stays { OnErr result (Keeps (left self.old) (left self.new)) }
        ensures readable { OnOk result (readable self.new) }
        ensures failed { OnErr result (Rose faults full self.old self.new) }
        ensures unfailed { OnOk result (faults self.new ≡ faults self.old) }
        ensures lasting { faults self.old ≤ faults self.new };
}

/// Where bytes go.
///
/// A sink may say which bytes it takes. Then a call that is proved over any sink writes no others, at any moment, also
/// if it never returns: `write` requires it.
pub trait Sink {
    /// The bytes held, if contracts see them.
    ghost held: { Self → Option (List ℕ) };

    /// How often it has failed: it rises at a failure alone, and never falls.
    ghost faults: { Self → ℕ };

    /// The count is at its last value. Never, if it has none.
    ghost full: { Self → Type 0 };

    /// It takes this text next: its bytes in their order, as far as the writer gets. After a failure nothing says so
    /// any more: who writes to a sink can't try again.
    ghost takes: { Self → List ℕ → Type 0 };

    /// Appends the first `n` of the bytes and answers `n`, at least 1 for a piece that isn't empty.
    fn write(&mut self, bytes: &[u8]) -> Result<usize, Failed>
        requires next { TakesNext takes self.old bytes.now }
        ensures count { IfOk result (λ n. n ≤ length bytes.now) }
        ensures some { IfOk result (λ n. 0 < length bytes.now → 0 < n) }
        ensures appended { IfOk result (λ n.
            Appends (held self.old) (held self.new) (take n bytes.now)) }
        ensures stays { OnErr result (Keeps (held self.old) (held self.new)) }
        ensures onward { IfOk result (λ n. MovesOn takes self.old self.new (take n bytes.now)) }
        ensures failed { OnErr result (Rose faults full self.old self.new) }
        ensures unfailed { OnOk result (faults self.new ≡ faults self.old) }
        ensures lasting { faults self.old ≤ faults self.new };
}

/// A hook for tests: the threads of a decode call it before and after they act. It promises nothing, and may block
/// its caller.
pub trait Gate {
    /// A worker calls it before each piece that it puts.
    fn before_put(&self, segment: u8);

    /// A worker calls it after the answer to each put.
    fn after_put(&self, segment: u8);

    /// The emitter calls it before it asks for a segment of its own.
    fn before_own(&self, segment: u8);
}

/// Blocks no caller.
#[derive(Clone, Copy)]
pub struct OpenGate;

impl Gate for OpenGate {
    fn before_put(&self, _segment: u8) {}

    fn after_put(&self, _segment: u8) {}

    fn before_own(&self, _segment: u8) {}
}
