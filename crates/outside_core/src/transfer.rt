// A source read to its end, and bytes written whole.
ghost use Rattle.std.specs.Prelude.{◌≡◌, ℕ, ◌+◌, ◌<◌, ◌≤◌, List, length, take, drop, IfOk, IfErr, OnOk, OnErr, IsErr, IsErrOf, IfSome};
ghost use Rattle.std.specs.Io.KnownBytes.{Appends, Consumes, IsAtEnd, Keeps};
ghost use Rattle.outside_core.specs.Faults.{Rose};
ghost use Rattle.outside_core.specs.Takes.{MovesOn, TakesNext};

use crate::{Failed, Sink, Source};
use allocation::{NoMemory, resize};
use std::alloc::Global;

/// Why a source wasn't read to its end.
#[derive(Clone, Copy, Debug, PartialEq, Eq)]
pub enum ReadAll {
    /// A read failed.
    ReadFault,
    /// There was more than the limit.
    TooLong,
    NoMemory(NoMemory),
}

impl From<NoMemory> for ReadAll {
    ghost use Rattle.std.specs.Prelude.{◌≡◌};
    ghost use Rattle.outside_core.specs.declared.transfer.ReadAll.TheVariants.{NoMemory};

    ghost from_gives = { λ short error. error ≡ NoMemory short };

    fn from(short: NoMemory) -> Self {
        ReadAll::NoMemory(short)
    }
}

/// Not all was written: the sink failed after `written` bytes.
#[derive(Clone, Copy, Debug, PartialEq, Eq)]
pub struct WriteFault {
    pub written: u64,
}

/// The most bytes that the buffer of `read_all` grows by at a time: so few that they are still in the processor's cache
/// when they are read.
const PIECE: u64 = 1 << 16;

/// All that a source has left, at most `limit` bytes. It is read into the room of the result itself, and asked
/// for no more once it gave a byte past the limit.
pub fn read_all<S: Source>(alloc: Global, source: &mut S, limit: u64) -> Result<Vec<u8>, ReadAll>
    requires readable { S.readable source.old }
    // All that was left is read, and nothing is left.
    ensures whole { IfOk result (λ bytes.
        Consumes (S.left source.old) (S.left source.new) bytes.items) }
    ensures end { OnOk result (IsAtEnd (S.left source.new)) }
    ensures within { IfOk result (λ bytes. length bytes.items ≤ limit) }

    // One byte past the limit was read, and none after it.
    ensures too_long { IsErrOf result ReadAll.TooLong
        → ((taken : List ℕ) × (length taken ≡ limit + 1)
        × Consumes (S.left source.old) (S.left source.new) taken) }

    // More than the limit is never answered as the whole.
    ensures never_cut { IfSome (S.left source.old) (λ bytes. limit < length bytes → IsErr result) }

    ensures read_fault { IsErrOf result ReadAll.ReadFault
        → Rose S.faults S.full source.old source.new }

    // But for that answer no read failed.
    ensures unfailed { ¬ IsErrOf result ReadAll.ReadFault → S.faults source.new
        ≡ S.faults source.old }

    // In every case only a prefix was read, at most one byte past the limit.
    ensures prefix { (taken : List ℕ) × (length taken ≤ limit + 1)
        × Consumes (S.left source.old) (S.left source.new) taken }
    ensures lasting { S.faults source.old ≤ S.faults source.new }
{
    let mut bytes = Vec::new(alloc);
    let mut filled = 0;
    loop {
        make_room(&mut bytes, filled, limit)?;
        let taken = fill(source, &mut bytes, filled)?;
        if taken == 0 {
            bytes.truncate(filled);
            return Ok(bytes);
        }
        filled += taken;
        if filled as u64 > limit {
            return Err(ReadAll::TooLong);
        }
    }
}

/// Appends the bytes, whole or up to where the sink fails.
pub fn write_all<K: Sink>(sink: &mut K, bytes: &[u8]) -> Result<(), WriteFault>
    requires next { TakesNext K.takes sink.old bytes.now }
    ensures whole { OnOk result (Appends (K.held sink.old) (K.held sink.new) bytes.now) }
    ensures part { IfErr result (λ fault.
        Appends (K.held sink.old) (K.held sink.new) (take fault.written bytes.now)) }
    ensures short { IfErr result (λ fault. fault.written < length bytes.now) }
    ensures onward { OnOk result (MovesOn K.takes sink.old sink.new bytes.now) }
    ensures failed { OnErr result (Rose K.faults K.full sink.old sink.new) }
    ensures unfailed { OnOk result (K.faults sink.new ≡ K.faults sink.old) }
    ensures lasting { K.faults sink.old ≤ K.faults sink.new }
{
    let mut written = 0;
    while written < bytes.len() {
        written += put(sink, bytes, written)?;
    }
    Ok(())
}

// One write of the bytes from the first that isn't written.
fn put<K: Sink>(sink: &mut K, bytes: &[u8], written: usize) -> Result<usize, WriteFault>
    requires below { written < length bytes.now }
    requires next { TakesNext K.takes sink.old (drop written bytes.now) }
    ensures count { IfOk result (λ n. written + n ≤ length bytes.now) }
    ensures some { IfOk result (λ n. 0 < n) }
    ensures appended { IfOk result (λ n.
        Appends (K.held sink.old) (K.held sink.new) (take n (drop written bytes.now))) }
    ensures stays { OnErr result (Keeps (K.held sink.old) (K.held sink.new)) }
    ensures onward { IfOk result (λ n.
        MovesOn K.takes sink.old sink.new (take n (drop written bytes.now))) }
    ensures fault { IfErr result (λ fault. fault.written ≡ written) }
    ensures failed { OnErr result (Rose K.faults K.full sink.old sink.new) }
    ensures unfailed { OnOk result (K.faults sink.new ≡ K.faults sink.old) }
    ensures lasting { K.faults sink.old ≤ K.faults sink.new }
{
    let (_, rest) = bytes.split_at(written);
    match sink.write(rest) {
        Ok(taken) => Ok(taken),
        Err(Failed) => Err(WriteFault {
            written: written as u64,
        }),
    }
}

// Makes the buffer longer if all of it is filled, at most to one byte past the limit.
fn make_room(bytes: &mut Vec<u8>, filled: usize, limit: u64) -> Result<(), NoMemory>
    requires in_range { filled ≤ length bytes.old.items }
    requires below { filled ≤ limit }
    ensures kept { OnOk result (take filled bytes.new.items ≡ take filled bytes.old.items) }
    ensures room { OnOk result (filled < length bytes.new.items) }
    ensures within { OnOk result (length bytes.old.items ≤ limit + 1
        → length bytes.new.items ≤ limit + 1) }
{
    if filled < bytes.len() {
        return Ok(());
    }
    grow(bytes, limit - filled as u64)
}

// Makes the buffer longer, by at least one byte and at most one more than `left`.
fn grow(bytes: &mut Vec<u8>, left: u64) -> Result<(), NoMemory>
    ensures kept { OnOk result (take (length bytes.old.items) bytes.new.items ≡ bytes.old.items) }
    ensures longer { OnOk result (length bytes.old.items < length bytes.new.items) }
    ensures within { OnOk result (length bytes.new.items ≤ length bytes.old.items + (left + 1)) }
{
    let piece = left.saturating_add(1).min(PIECE);
    // No list is as long as the number at which this stops.
    let longer = bytes.len().saturating_add(piece as usize);
    resize(bytes, longer, 0)
}

// One read into the part of the buffer that isn't filled.
fn fill<S: Source>(source: &mut S, bytes: &mut Vec<u8>, filled: usize) -> Result<usize, ReadAll>
    requires below { filled < length bytes.old.items }
    requires readable { S.readable source.old }
    ensures len { length bytes.new.items ≡ length bytes.old.items }
    ensures kept { take filled bytes.new.items ≡ take filled bytes.old.items }
    ensures count { IfOk result (λ n. filled + n ≤ length bytes.old.items) }
    ensures moved { IfOk result (λ n. Consumes (S.left source.old) (S.left source.new)
        (take n (drop filled bytes.new.items))) }
    ensures end { IfOk result (λ n. n ≡ 0 → IsAtEnd (S.left source.new)) }
    ensures stays { OnErr result (Keeps (S.left source.old) (S.left source.new)) }
    ensures readable { OnOk result (S.readable source.new) }
    ensures fault { IfErr result (λ error. error ≡ ReadAll.ReadFault) }
    ensures failed { OnErr result (Rose S.faults S.full source.old source.new) }
    ensures unfailed { OnOk result (S.faults source.new ≡ S.faults source.old) }
    ensures lasting { S.faults source.old ≤ S.faults source.new }
{
    match source.read(&mut bytes[filled..]) {
        Ok(taken) => Ok(taken),
        Err(Failed) => Err(ReadAll::ReadFault),
    }
}
