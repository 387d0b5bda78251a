// A source over a slice, and a sink that compares what it gets with a slice. Neither ever fails.
ghost use Rattle.std.specs.Prelude.{◌≡◌, ◌<◌, ◌≤◌, Some, None, length, take, drop, min, IfOk, OnOk, OnErr};
ghost use Rattle.std.specs.Io.KnownBytes.{Appends, Consumes, IsAtEnd, Keeps};
ghost use Rattle.outside_core.specs.Faults.{Rose, Never, no_faults};
ghost use Rattle.outside_core.specs.Takes.{Always, Anything, MovesOn};
ghost use Rattle.outside_core.specs.Memory.{shared_prefix, after_bytes};

use crate::{Failed, Sink, Source};
use std::marker::Model;

/// A source over a slice that never fails.
#[derive(Drop)]
pub struct NeverSource<'a> {
    bytes: &'a [u8],
}

impl<'a> Model for NeverSource<'a> {
    ghost use Rattle.std.specs.Prelude.{List, ℕ};

    ghost Value = { List ℕ };

    ghost view = { λ s. s.bytes.now };
}

impl<'a> NeverSource<'a> {
    pub fn new(bytes: &'a [u8]) -> Self
        ensures { result ≡ bytes.now }
    {
        NeverSource { bytes }
    }
}

impl<'a> Source for NeverSource<'a> {
    ghost left = { λ s. Some s };

    ghost faults = { no_faults };

    ghost full = { Never };

    ghost readable = { Always };

    fn read(&mut self, buf: &mut [u8]) -> Result<usize, Failed>
        ensures count { IfOk result (λ n. n ≤ length buf.old) }
        ensures moved { IfOk result (λ n.
            Consumes (Some self.old) (Some self.new) (take n buf.new)) }
        ensures rest { IfOk result (λ n. drop n buf.new ≡ drop n buf.old) }
        ensures end { IfOk result (λ n. n ≡ 0 → 0 < length buf.old → IsAtEnd (Some self.new)) }
        ensures stays { OnErr result (Keeps (Some self.old) (Some self.new)) }
        ensures readable { OnOk result (Always self.new) }
        ensures failed { OnErr result (Rose no_faults Never self.old self.new) }
        ensures unfailed { OnOk result (no_faults self.new ≡ no_faults self.old) }
        ensures lasting { no_faults self.old ≤ no_faults self.new }

        // It gives as many bytes as there is room for.
        ensures gives { result ≡ Ok (min (length buf.old) (length self.old)) }
        ensures after { IfOk result (λ n. self.new ≡ drop n self.old) }
    {
        let taken = buf.len().min(self.bytes.len());
        let (first, rest) = self.bytes.split_at(taken);
        buf[..taken].copy_from_slice(first);
        self.bytes = rest;
        Ok(taken)
    }
}

/// A sink that keeps nothing: it counts the bytes that agreed with a slice, up to the first that doesn't.
#[derive(Drop)]
pub struct Compare<'a> {
    rest: &'a [u8],
    agreed: u64,
}

impl<'a> Model for Compare<'a> {
    ghost use Rattle.std.specs.Prelude.{◌+◌, ◌<◌, ◌^◌, length};
    ghost use Rattle.outside_core.specs.Memory.{Match};

    ghost Value = { Match };

    ghost view = { λ s. record { rest = s.rest.now; agreed = s.agreed } };

    ghost invariant = { λ s. s.agreed + length s.rest.now < 2 ^ 64 };
}

impl<'a> Compare<'a> {
    pub fn new(bytes: &'a [u8]) -> Self
        ensures { result ≡ record { rest = bytes.now; agreed = 0 } }
    {
        Compare {
            rest: bytes,
            agreed: 0,
        }
    }

    /// How many bytes, from the first on, were those of the slice.
    pub fn agreed(&self) -> u64
        ensures { result ≡ self.now.agreed }
    {
        self.agreed
    }
}

impl<'a> Sink for Compare<'a> {
    ghost held = { λ _. None };

    ghost faults = { no_faults };

    ghost full = { Never };

    ghost takes = { Anything };

    fn write(&mut self, bytes: &[u8]) -> Result<usize, Failed>
        ensures count { IfOk result (λ n. n ≤ length bytes.now) }
        ensures some { IfOk result (λ n. 0 < length bytes.now → 0 < n) }
        ensures appended { IfOk result (λ n. Appends None None (take n bytes.now)) }
        ensures stays { OnErr result (Keeps None None) }
        ensures onward { IfOk result (λ n. MovesOn Anything self.old self.new (take n bytes.now)) }
        ensures failed { OnErr result (Rose no_faults Never self.old self.new) }
        ensures unfailed { OnOk result (no_faults self.new ≡ no_faults self.old) }
        ensures lasting { no_faults self.old ≤ no_faults self.new }

        // It accepts all bytes, and counts those that agree.
        ensures takes { result ≡ Ok (length bytes.now) }
        ensures after { self.new ≡ after_bytes self.old bytes.now }
    {
        let same = prefix_length(self.rest, bytes);
        self.agreed += same as u64;
        self.rest = if same == bytes.len() {
            &self.rest[same..]
        } else {
            &[]
        };
        Ok(bytes.len())
    }
}

// The length of the longest prefix that both have.
fn prefix_length(a: &[u8], b: &[u8]) -> usize
    ensures longest { result ≡ shared_prefix a.now b.now }
    ensures in_a { result ≤ length a.now }
    ensures in_b { result ≤ length b.now }
{
    let shorter = a.len().min(b.len());
    for i in 0..shorter {
        if a[i] != b[i] {
            return i;
        }
    }
    shorter
}
