// Bytes of a source, exactly as many as are asked for.
ghost use Rattle.std.specs.Prelude.{◌≡◌, ℕ, [], ◌∷◌, ◌+◌, ◌<◌, ◌≤◌, List, length, take, drop, IfOk, IfErr, IfSome, IfNone, OnOk, OnErr, IsErrOf};
ghost use Rattle.std.specs.Io.KnownBytes.{Consumes, IsAtEnd, Keeps};
ghost use Rattle.outside_core.specs.Faults.{Rose};
ghost use Rattle.store_run.specs.declared.reading.ReadStop.TheVariants.{AtEnd, ReadFault};

use allocation::{NoMemory, resize};
use outside_core::{Failed, Source};
use std::alloc::Global;

/// Why fewer bytes were read.
#[derive(Clone, Copy, Debug, PartialEq, Eq)]
pub(crate) enum ReadStop {
    /// The source ended.
    AtEnd,
    ReadFault,
    NoMemory(NoMemory),
}

/// How many bytes more memory is allocated for at a time, so that a length alone takes none.
const PIECE: usize = 1 << 16;

/// Reads a byte, if the source isn't at its end.
pub(crate) fn next_byte<S: Source>(source: &mut S) -> Result<Option<u8>, Failed>
    requires { S.readable source.old }
    ensures read { IfOk result (λ byte. IfSome byte (λ b.
        Consumes (S.left source.old) (S.left source.new) (b ∷ []))) }
    ensures end { IfOk result (λ byte. IfNone byte (IsAtEnd (S.left source.new)
        × Consumes (S.left source.old) (S.left source.new) [])) }
    ensures stays { OnErr result (Keeps (S.left source.old) (S.left source.new)) }
    ensures readable { OnOk result (S.readable source.new) }
    ensures failed { OnErr result (Rose S.faults S.full source.old source.new) }
    ensures unfailed { OnOk result (S.faults source.new ≡ S.faults source.old) }
    ensures lasting { S.faults source.old ≤ S.faults source.new }
{
    let mut buffer = [0];
    match source.read(&mut buffer) {
        Ok(0) => Ok(None),
        Ok(_) => Ok(Some(buffer[0])),
        Err(Failed) => Err(Failed),
    }
}

/// Reads N bytes.
pub(crate) fn read_exactly<S: Source>(
    alloc: Global,
    source: &mut S,
    count: usize,
) -> Result<Vec<u8>, ReadStop>
    requires { S.readable source.old }
    ensures length { IfOk result (λ bytes. length bytes.items ≡ count) }
    ensures whole { IfOk result (λ bytes.
        Consumes (S.left source.old) (S.left source.new) bytes.items) }
    ensures part { OnErr result ((part : List ℕ) × (length part < count)
        × Consumes (S.left source.old) (S.left source.new) part) }
    ensures end { IsErrOf result AtEnd → IsAtEnd (S.left source.new) }
    ensures readable { OnOk result (S.readable source.new) }
    ensures read_fault { IsErrOf result ReadFault → Rose S.faults S.full source.old source.new }
    ensures unfailed { ¬ IsErrOf result ReadFault → S.faults source.new ≡ S.faults source.old }
    ensures lasting { S.faults source.old ≤ S.faults source.new }
{
    let mut bytes = Vec::new(alloc);
    let mut filled = 0;
    while filled < count {
        if let Err(short) = make_room(&mut bytes, filled, count) {
            return Err(ReadStop::NoMemory(short));
        }
        let taken = fill(source, &mut bytes, filled)?;
        if taken == 0 {
            return Err(ReadStop::AtEnd);
        }
        filled += taken;
    }
    Ok(bytes)
}

// Makes the buffer longer if all of it is filled, at most to `count` bytes.
fn make_room(bytes: &mut Vec<u8>, filled: usize, count: usize) -> Result<(), NoMemory>
    requires in_range { filled ≤ length bytes.old.items }
    requires below { filled < count }
    ensures kept { OnOk result (take filled bytes.new.items ≡ take filled bytes.old.items) }
    ensures room { OnOk result (filled < length bytes.new.items) }
    ensures within { OnOk result (length bytes.old.items ≤ count → length bytes.new.items ≤ count) }
{
    if filled < bytes.len() {
        return Ok(());
    }
    let piece = PIECE.min(count - filled);
    resize(bytes, filled + piece, 0)
}

// One read into the part of the buffer that isn't filled.
fn fill<S: Source>(source: &mut S, bytes: &mut Vec<u8>, filled: usize) -> Result<usize, ReadStop>
    requires below { filled < length bytes.old.items }
    requires readable { S.readable source.old }
    ensures len { length bytes.new.items ≡ length bytes.old.items }
    ensures kept { take filled bytes.new.items ≡ take filled bytes.old.items }
    ensures count { IfOk result (λ n. filled + n ≤ length bytes.old.items) }
    ensures moved { IfOk result (λ n. Consumes (S.left source.old) (S.left source.new)
        (take n (drop filled bytes.new.items))) }
    ensures end { IfOk result (λ n. n ≡ 0 → IsAtEnd (S.left source.new)) }
    ensures stays { OnErr result (Keeps (S.left source.old) (S.left source.new)) }
    ensures readable { OnOk result (S.readable source.new) }
    ensures fault { IfErr result (λ stop. stop ≡ ReadFault) }
    ensures failed { OnErr result (Rose S.faults S.full source.old source.new) }
    ensures unfailed { OnOk result (S.faults source.new ≡ S.faults source.old) }
    ensures lasting { S.faults source.old ≤ S.faults source.new }
{
    match source.read(&mut bytes[filled..]) {
        Ok(taken) => Ok(taken),
        Err(Failed) => Err(ReadStop::ReadFault),
    }
}
