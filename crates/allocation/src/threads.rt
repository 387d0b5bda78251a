// Calls in threads.
ghost use Rattle.std.specs.Prelude.{◌≡◌, ◌*◌, ◌<◌, ◌≤◌, ℕ, vec_len, IfOk};
ghost use Rattle.std.specs.Fork.{GivesEach};
ghost use Rattle.std.specs.Mem.{type_size};
ghost use Rattle.allocation.specs.Bounds.{most_at_once};

use crate::no_memory::NoMemory;
use std::alloc::Global;
use std::thread::{self, Threads};

/// Calls `call` at 0 to `count` - 1, each in a thread of its own if one can be had, and gives the results in order,
/// which take at most 256 GiB.
pub fn map_indices<R: Threads + Sync, X: Send + Drop, F: Fn(usize) -> X + Sync>(
    rt: &R,
    alloc: Global,
    count: usize,
    call: &F,
) -> Result<Vec<X>, NoMemory>
    requires each { (i : ℕ) → i < count → F.pre call.now i }
    requires sized { 0 < type_size X.row }
    requires few { count * type_size X.row ≤ most_at_once }
    ensures len { IfOk result (λ list. vec_len list ≡ count) }
    ensures each { IfOk result (λ list. GivesEach F.Fn call.now count list.items) }
{
    match thread::map_indices(rt, alloc, count, call) {
        Ok(list) => Ok(list),
        Err(_) => Err(NoMemory::new()),
    }
}
