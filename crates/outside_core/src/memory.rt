// A source and a sink in memory, whose calls fail if a test wants them to.
ghost use Rattle.std.specs.Prelude.{◌≡◌, ◌<◌, ◌≤◌, ◌↔◌, Some, [], ◌++◌, length, take, drop, IsErr, IfOk, OnOk, OnErr, IsTrue, ◌⊎◌};
ghost use Rattle.std.specs.Io.KnownBytes.{Appends, Consumes, IsAtEnd, Keeps};
ghost use Rattle.outside_core.specs.Faults.{Rose, Never};
ghost use Rattle.outside_core.specs.Takes.{Always, Anything, MovesOn};
ghost use Rattle.outside_core.specs.Memory.{past_calls, supply_faults, store_faults, StoreFull, counted, FailsNext, Refuses, given, accepted};

use crate::{Failed, Sink, Source};
use std::alloc::{AllocError, Global};
use std::marker::Model;

/// A source over a slice. It gives at most `piece` bytes a call, and fails at the calls that `fails` numbers, counted
/// from 1.
#[derive(Drop)]
pub struct MemSource<'a> {
    bytes: &'a [u8],
    piece: usize,
    fails: &'a [u64],
    calls: u64,
}

impl<'a> Model for MemSource<'a> {
    ghost use Rattle.std.specs.Prelude.{◌<◌};
    ghost use Rattle.outside_core.specs.Memory.{Supply};

    ghost Value = { Supply };

    ghost view = { λ s. record {
      left = s.bytes.now;
      piece = s.piece;
      fails = s.fails.now;
      calls = s.calls;
    } };

    ghost invariant = { λ s. 0 < s.piece };
}

impl<'a> MemSource<'a> {
    pub fn new(bytes: &'a [u8], piece: usize, fails: &'a [u64]) -> Self
        requires { 0 < piece }
        ensures { result ≡ record {
          left = bytes.now;
          piece = piece;
          fails = fails.now;
          calls = 0;
        } }
    {
        MemSource {
            bytes,
            piece,
            fails,
            calls: 0,
        }
    }
}

impl<'a> Source for MemSource<'a> {
    ghost left = { λ s. Some s.left };

    ghost faults = { supply_faults };

    ghost full = { Never };

    ghost readable = { Always };

    fn read(&mut self, buf: &mut [u8]) -> Result<usize, Failed>
        ensures count { IfOk result (λ n. n ≤ length buf.old) }
        ensures moved { IfOk result (λ n.
            Consumes (Some self.old.left) (Some self.new.left) (take n buf.new)) }
        ensures rest { IfOk result (λ n. drop n buf.new ≡ drop n buf.old) }
        ensures end { IfOk result (λ n. n ≡ 0 → 0 < length buf.old → IsAtEnd (Some self.new.left)) }
        ensures stays { OnErr result (Keeps (Some self.old.left) (Some self.new.left)) }
        ensures readable { OnOk result (Always self.new) }
        ensures failed { OnErr result (Rose supply_faults Never self.old self.new) }
        ensures unfailed { OnOk result (supply_faults self.new ≡ supply_faults self.old) }
        ensures lasting { supply_faults self.old ≤ supply_faults self.new }

        // It fails at the numbered calls, and at no other.
        ensures fails { IsErr result ↔ FailsNext self.old.fails self.old.calls }
        ensures gives { IfOk result (λ n. n ≡ given self.old (length buf.old)) }
        ensures after { IfOk result (λ n. self.new
            ≡ record self.old { left = drop n self.old.left; calls = counted self.old.calls }) }
        ensures at_failure { OnErr result (self.new
            ≡ record self.old { calls = counted self.old.calls }) }
        ensures untouched { OnErr result (buf.new ≡ buf.old) }
    {
        if count_call(&mut self.calls, self.fails) {
            return Err(Failed);
        }
        let taken = self.piece.min(buf.len()).min(self.bytes.len());
        let (first, rest) = self.bytes.split_at(taken);
        buf[..taken].copy_from_slice(first);
        self.bytes = rest;
        Ok(taken)
    }
}

/// A sink in memory. It takes its room at once and at most `piece` bytes a call, fails at the calls that `fails`
/// numbers, counted from 1, and counts a fault if a write finds no room left.
#[derive(Drop)]
pub struct MemSink<'a> {
    held: Vec<u8>,
    room: usize,
    piece: usize,
    fails: &'a [u64],
    calls: u64,
    refused: u64,
}

impl<'a> Model for MemSink<'a> {
    ghost use Rattle.std.specs.Prelude.{◌<◌, ◌≤◌, ◌^◌, vec_len, vec_capacity};
    ghost use Rattle.outside_core.specs.Memory.{Store};

    ghost Value = { Store };

    ghost view = { λ s. record {
      held = s.held.items;
      room = s.room;
      piece = s.piece;
      fails = s.fails.now;
      calls = s.calls;
      refused = s.refused;
    } };

    ghost invariant = { λ s. (0 < s.piece) × (vec_len s.held ≤ s.room)
        × (s.room ≤ vec_capacity s.held) };
}

impl<'a> MemSink<'a> {
    pub fn new(
        alloc: Global,
        room: usize,
        piece: usize,
        fails: &'a [u64],
    ) -> Result<MemSink<'a>, AllocError>
        requires { 0 < piece }
        ensures { IfOk result (λ sink. sink
            ≡ record {
              held = [];
              room = room;
              piece = piece;
              fails = fails.now;
              calls = 0;
              refused = 0;
            }) }
    {
        Ok(MemSink {
            held: Vec::with_capacity(alloc, room)?,
            room,
            piece,
            fails,
            calls: 0,
            refused: 0,
        })
    }

    /// What was written.
    pub fn bytes(&self) -> &[u8]
        ensures { result.now ≡ self.now.held }
    {
        &self.held
    }
}

impl<'a> Sink for MemSink<'a> {
    ghost held = { λ s. Some s.held };

    ghost faults = { store_faults };

    ghost full = { StoreFull };

    ghost takes = { Anything };

    fn write(&mut self, bytes: &[u8]) -> Result<usize, Failed>
        ensures count { IfOk result (λ n. n ≤ length bytes.now) }
        ensures some { IfOk result (λ n. 0 < length bytes.now → 0 < n) }
        ensures appended { IfOk result (λ n.
            Appends (Some self.old.held) (Some self.new.held) (take n bytes.now)) }
        ensures stays { OnErr result (Keeps (Some self.old.held) (Some self.new.held)) }
        ensures onward { IfOk result (λ n. MovesOn Anything self.old self.new (take n bytes.now)) }
        ensures failed { OnErr result (Rose store_faults StoreFull self.old self.new) }
        ensures unfailed { OnOk result (store_faults self.new ≡ store_faults self.old) }
        ensures lasting { store_faults self.old ≤ store_faults self.new }

        // It fails at the numbered calls and if there is no room, and else never.
        ensures fails { IsErr result
            ↔ (FailsNext self.old.fails self.old.calls ⊎ Refuses self.old bytes.now) }
        ensures takes { IfOk result (λ n. n ≡ accepted self.old bytes.now) }
        ensures after { IfOk result (λ n. self.new
            ≡ record self.old {
              held = self.old.held
                  ++ take n bytes.now;
              calls = counted self.old.calls;
            }) }
        ensures at_failure { FailsNext self.old.fails self.old.calls
            → self.new ≡ record self.old { calls = counted self.old.calls } }
        ensures at_refusal { OnErr result (¬ FailsNext self.old.fails self.old.calls
            → self.new ≡ record self.old {
              calls = counted self.old.calls;
              refused = counted self.old.refused;
            }) }
    {
        if count_call(&mut self.calls, self.fails) {
            return Err(Failed);
        }
        let taken = self.piece.min(bytes.len()).min(self.room - self.held.len());
        if taken == 0 && !bytes.is_empty() {
            self.refused = self.refused.saturating_add(1);
            return Err(Failed);
        }
        self.held.extend_from_slice(&bytes[..taken]).unwrap();
        Ok(taken)
    }
}

// Counts a call, and answers whether it is one that fails. Past the last number of a call none does.
fn count_call(calls: &mut u64, fails: &[u64]) -> bool
    ensures counts { calls.new ≡ counted calls.old }
    ensures fails { IsTrue result ↔ FailsNext fails.now calls.old }
    ensures risen { IsTrue result
        → past_calls fails.now calls.old < past_calls fails.now calls.new }
    ensures unrisen { ¬ IsTrue result → past_calls fails.now calls.new
        ≡ past_calls fails.now calls.old }
    ensures lasting { past_calls fails.now calls.old ≤ past_calls fails.now calls.new }
{
    if *calls == u64::MAX {
        return false;
    }
    *calls += 1;
    fails.contains(calls)
}
