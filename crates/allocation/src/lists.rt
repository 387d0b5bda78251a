// Lists and texts of std.
ghost use Rattle.std.specs.Prelude.{◌≡◌, ◌+◌, ◌-◌, ◌*◌, ◌<◌, ◌≤◌, [], ◌∷◌, ◌++◌, length, take, replicate, insert as inserted, is_ok, if◌then◌else◌, vec_len, vec_capacity, IfOk, IsOk, OnErr, string_bytes};
ghost use Rattle.std.specs.Mem.{type_size};
ghost use Rattle.std.specs.Str.Lossy.{utf8_lossy};
ghost use Rattle.allocation.specs.Bounds.{most_at_once};

use crate::no_memory::NoMemory;
use std::alloc::Global;

/// Appends an item.
#[inline]
pub fn push<T: Drop>(list: &mut Vec<T>, item: T) -> Result<(), NoMemory>
    requires sized { 0 < type_size T.row }
    ensures items { list.new.items
        ≡ (if is_ok result then list.old.items ++ item ∷ [] else list.old.items) }
    ensures len { vec_len list.new ≡ (if is_ok result then vec_len list.old + 1 else vec_len list.old) }
    ensures capacity { vec_capacity list.old ≤ vec_capacity list.new }
    ensures succeeds { vec_len list.old < vec_capacity list.old → IsOk result }
    ensures full { OnErr result (vec_capacity list.old ≤ vec_len list.old) }
{
    match list.push(item) {
        Ok(()) => Ok(()),
        Err(_) => Err(NoMemory::new()),
    }
}

/// Appends items.
#[inline]
pub fn extend_from_slice<T: Copy>(list: &mut Vec<T>, more: &[T]) -> Result<(), NoMemory>
    requires sized { 0 < type_size T.row }
    ensures items { list.new.items
        ≡ (if is_ok result then list.old.items ++ more.now else list.old.items) }
    ensures len { vec_len list.new
        ≡ (if is_ok result then vec_len list.old + length more.now else vec_len list.old) }
    ensures capacity { vec_capacity list.old ≤ vec_capacity list.new }
    ensures succeeds { vec_len list.old + length more.now ≤ vec_capacity list.old → IsOk result }
    ensures full { OnErr result (vec_capacity list.old < vec_len list.old + length more.now) }
{
    match list.extend_from_slice(more) {
        Ok(()) => Ok(()),
        Err(_) => Err(NoMemory::new()),
    }
}

/// Cuts the list to `length`, or fills it up with copies of `item`: at most 256 GiB of them.
pub fn resize<T: Copy>(list: &mut Vec<T>, length: usize, item: T) -> Result<(), NoMemory>
    requires sized { 0 < type_size T.row }
    requires few { (length - vec_len list.old) * type_size T.row ≤ most_at_once }
    ensures items { list.new.items ≡ (if is_ok result
        then take length list.old.items ++ replicate (length - vec_len list.old) item
        else list.old.items) }
    ensures len { vec_len list.new ≡ (if is_ok result then length else vec_len list.old) }
    ensures capacity { vec_capacity list.old ≤ vec_capacity list.new }
    ensures succeeds { length ≤ vec_capacity list.old → IsOk result }
    ensures full { OnErr result (vec_capacity list.old < length) }
{
    match list.resize(length, item) {
        Ok(()) => Ok(()),
        Err(_) => Err(NoMemory::new()),
    }
}

/// Inserts an item before the one with this index, or at the end.
pub fn insert<T: Drop>(list: &mut Vec<T>, index: usize, item: T) -> Result<(), NoMemory>
    requires index { index ≤ vec_len list.old }
    requires sized { 0 < type_size T.row }
    ensures items { list.new.items
        ≡ (if is_ok result then inserted list.old.items index item else list.old.items) }
    ensures len { vec_len list.new ≡ (if is_ok result then vec_len list.old + 1 else vec_len list.old) }
    ensures capacity { vec_capacity list.old ≤ vec_capacity list.new }
    ensures succeeds { vec_len list.old < vec_capacity list.old → IsOk result }
    ensures full { OnErr result (vec_capacity list.old ≤ vec_len list.old) }
{
    match list.insert(index, item) {
        Ok(()) => Ok(()),
        Err(_) => Err(NoMemory::new()),
    }
}

/// An empty list with room for `capacity` items, at most 256 GiB.
pub fn with_capacity<T>(alloc: Global, capacity: usize) -> Result<Vec<T>, NoMemory>
    requires sized { 0 < type_size T.row }
    requires few { capacity * type_size T.row ≤ most_at_once }
    ensures items { IfOk result (λ list. list.items ≡ []) }
    ensures len { IfOk result (λ list. vec_len list ≡ 0) }
    ensures capacity { IfOk result (λ list. capacity ≤ vec_capacity list) }
    ensures exact { IfOk result (λ list. vec_capacity list ≡ capacity) }
    ensures succeeds { capacity ≡ 0 → IsOk result }
{
    match Vec::with_capacity(alloc, capacity) {
        Ok(list) => Ok(list),
        Err(_) => Err(NoMemory::new()),
    }
}

/// A list of these items.
pub fn from_slice<T: Copy>(alloc: Global, items: &[T]) -> Result<Vec<T>, NoMemory>
    requires sized { 0 < type_size T.row }
    ensures items { IfOk result (λ list. list.items ≡ items.now) }
    ensures len { IfOk result (λ list. vec_len list ≡ length items.now) }
{
    match Vec::from_slice(alloc, items) {
        Ok(list) => Ok(list),
        Err(_) => Err(NoMemory::new()),
    }
}

/// A list of `length` copies of `item`, at most 256 GiB. They are copied, not cloned: a clone may fail for any reason.
pub fn from_elem<T: Copy>(alloc: Global, item: T, length: usize) -> Result<Vec<T>, NoMemory>
    requires sized { 0 < type_size T.row }
    requires few { length * type_size T.row ≤ most_at_once }
    ensures items { IfOk result (λ list. list.items ≡ replicate length item) }
    ensures len { IfOk result (λ list. vec_len list ≡ length) }
{
    let mut list = Vec::new(alloc);
    resize(&mut list, length, item)?;
    Ok(list)
}

/// A copy of a text.
pub fn string_from_str(alloc: Global, text: &str) -> Result<String, NoMemory>
    ensures ok { IfOk result (λ copy. string_bytes copy ≡ text.now) }
{
    match String::from_str(alloc, text) {
        Ok(copy) => Ok(copy),
        Err(_) => Err(NoMemory::new()),
    }
}

/// The text that these bytes are, with U+FFFD in place of what is none.
pub fn string_from_utf8_lossy(alloc: Global, bytes: &[u8]) -> Result<String, NoMemory>
    ensures lossy { IfOk result (λ text. string_bytes text ≡ utf8_lossy bytes.now) }
{
    match String::from_utf8_lossy(alloc, bytes) {
        Ok(text) => Ok(text),
        Err(_) => Err(NoMemory::new()),
    }
}
