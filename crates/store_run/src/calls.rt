// The calls that the records of a source ask for.
ghost use Rattle.std.specs.Prelude.{◌≡◌, ℕ, ◌∷◌, ◌++◌, ◌<◌, ◌≤◌, List, length, Err, IfOk, IfErr, OnOk, IsErrOf};
ghost use Rattle.std.specs.Io.KnownBytes.{Consumes, IsAtEnd};
ghost use Rattle.byteorder.specs.Endian.{big_bytes};
ghost use Rattle.outside_core.specs.Faults.{Rose};
ghost use Rattle.container_spec.specs.Limits.{most_of_a_file};
ghost use Rattle.store_run.specs.Reading.{IsRead, ReadsNext, ReadsRest, stop_of};
ghost use Rattle.store_run.specs.Records.{key_length, put_mark};
ghost use Rattle.store_run.specs.declared.calls.RecordStop.TheVariants.{Bad, ReadFault};

use crate::reading::{ReadStop, next_byte, read_exactly};
use allocation::NoMemory;
use blob_store::Key;
use byteorder::{BigEndian, ByteOrder};
use outside_core::{Failed, Source};
use std::alloc::Global;

// The first byte of a record.
const PUT: u8 = 0x50;

const FIND: u8 = 0x47;

const REMOVE: u8 = 0x44;

// The most bytes of a file.
const MOST_BYTES: u32 = 67_108_864;

/// What a record asks for.
#[derive(Drop)]
pub(crate) enum Asked {
    Put(Vec<u8>),
    Find(Key),
    Remove(Key),
}

/// Why no record was read.
#[derive(Clone, Copy, Debug, PartialEq, Eq)]
pub(crate) enum RecordStop {
    /// No record begins with these bytes, or the source ended in it.
    Bad,
    ReadFault,
    NoMemory(NoMemory),
}

/// Reads the next record, if the source isn't at its end.
pub(crate) fn next_call<S: Source>(
    alloc: Global,
    source: &mut S,
) -> Result<Option<Asked>, RecordStop>
    requires { S.readable source.old }
    ensures read { ReadsNext (S.left source.old) (S.left source.new) result }
    ensures read_fault { IsErrOf result ReadFault → Rose S.faults S.full source.old source.new }
    ensures readable { OnOk result (S.readable source.new) }
    ensures unfailed { ¬ IsErrOf result ReadFault → S.faults source.new ≡ S.faults source.old }
    ensures lasting { S.faults source.old ≤ S.faults source.new }
{
    match next_byte(source) {
        Ok(None) => Ok(None),
        Ok(Some(mark)) => match read_rest(alloc, source, mark) {
            Ok(asked) => Ok(Some(asked)),
            Err(stop) => Err(stop),
        },
        Err(Failed) => Err(RecordStop::ReadFault),
    }
}

// The rest of a record, after its first byte.
fn read_rest<S: Source>(alloc: Global, source: &mut S, mark: u8) -> Result<Asked, RecordStop>
    requires { S.readable source.old }
    ensures read { ReadsRest mark (S.left source.old) (S.left source.new) result }
    ensures read_fault { IsErrOf result ReadFault → Rose S.faults S.full source.old source.new }
    ensures readable { OnOk result (S.readable source.new) }
    ensures unfailed { ¬ IsErrOf result ReadFault → S.faults source.new ≡ S.faults source.old }
    ensures lasting { S.faults source.old ≤ S.faults source.new }
{
    if mark == PUT {
        return match read_file(alloc, source) {
            Ok(file) => Ok(Asked::Put(file)),
            Err(stop) => Err(stop),
        };
    }
    if mark != FIND && mark != REMOVE {
        return Err(RecordStop::Bad);
    }
    match read_key(alloc, source) {
        Ok(key) if mark == FIND => Ok(Asked::Find(key)),
        Ok(key) => Ok(Asked::Remove(key)),
        Err(stop) => Err(stop),
    }
}

// A file's length and its bytes.
fn read_file<S: Source>(alloc: Global, source: &mut S) -> Result<Vec<u8>, RecordStop>
    requires { S.readable source.old }
    ensures file { IfOk result (λ file. (length file.items ≤ most_of_a_file)
        × Consumes (S.left source.old) (S.left source.new)
        (big_bytes 4 (length file.items) ++ file.items)) }
    ensures stop { IfErr result (λ stop. (part : List ℕ)
        × Consumes (S.left source.old) (S.left source.new) part
        × IsRead (put_mark ∷ part) (S.left source.new) (Err stop)) }
    ensures read_fault { IsErrOf result ReadFault → Rose S.faults S.full source.old source.new }
    ensures readable { OnOk result (S.readable source.new) }
    ensures unfailed { ¬ IsErrOf result ReadFault → S.faults source.new ≡ S.faults source.old }
    ensures lasting { S.faults source.old ≤ S.faults source.new }
{
    let field = match read_exactly(alloc, source, 4) {
        Ok(field) => field,
        Err(stop) => return Err(record_stop(stop)),
    };
    let length = number_in(field.as_slice());
    if length > MOST_BYTES {
        return Err(RecordStop::Bad);
    }
    match read_exactly(alloc, source, length as usize) {
        Ok(file) => Ok(file),
        Err(stop) => Err(record_stop(stop)),
    }
}

// The number that four bytes spell.
fn number_in(field: &[u8]) -> u32
    requires { length field.now ≡ 4 }
    ensures { big_bytes 4 result ≡ field.now }
{
    BigEndian::read_u32(field)
}

// A key.
fn read_key<S: Source>(alloc: Global, source: &mut S) -> Result<Key, RecordStop>
    requires { S.readable source.old }
    ensures key { IfOk result (λ key. (length key ≡ key_length)
        × Consumes (S.left source.old) (S.left source.new) key) }
    ensures stop { IfErr result (λ stop. (part : List ℕ)
        × Consumes (S.left source.old) (S.left source.new) part × (length part < key_length)
        × (stop ≡ Bad → IsAtEnd (S.left source.new))) }
    ensures read_fault { IsErrOf result ReadFault → Rose S.faults S.full source.old source.new }
    ensures readable { OnOk result (S.readable source.new) }
    ensures unfailed { ¬ IsErrOf result ReadFault → S.faults source.new ≡ S.faults source.old }
    ensures lasting { S.faults source.old ≤ S.faults source.new }
{
    match read_exactly(alloc, source, 32) {
        Ok(bytes) => {
            let mut key = [0; 32];
            key.copy_from_slice(bytes.as_slice());
            Ok(key)
        }
        Err(stop) => Err(record_stop(stop)),
    }
}

// A record stops with what stops the reading of its bytes.
fn record_stop(stop: ReadStop) -> RecordStop
    ensures { result ≡ stop_of stop }
{
    match stop {
        ReadStop::AtEnd => RecordStop::Bad,
        ReadStop::ReadFault => RecordStop::ReadFault,
        ReadStop::NoMemory(short) => RecordStop::NoMemory(short),
    }
}
