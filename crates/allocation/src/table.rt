// Tables of `atomic_table`.
ghost use Rattle.std.specs.Prelude.{◌≡◌, [], length, IfOk};
ghost use Rattle.atomic_table.specs.Table.{opening};

use crate::no_memory::NoMemory;
use atomic_table::{Refused, Seat, Table, TableRule};
use std::alloc::Global;

/// A table of these words and slots, and its first seat.
pub fn new_table<S: Drop, V, K, P: TableRule<S, V, K>>(
    alloc: Global,
    words: &[u64],
    slots: Vec<S>,
    about: &K,
) -> Result<(Table<S, V, K, P, Global>, Seat<S, V>), NoMemory>
    requires { P.holds about.now (opening words.now slots.items (P.first about.now)) }
    ensures { IfOk result (λ made. (made.0.shared.table_id.words ≡ length words.now)
        × (made.0.shared.table_id.slots ≡ length slots.items)
        × (made.1.table_id ≡ made.0.shared.table_id)
        × (made.1.id ≡ 0) × (made.1.me ≡ (P.first about.now, []))
        × (made.0.shared.key ≡ about.now)) }
{
    match Table::new(alloc, words, slots, about) {
        Ok(made) => Ok(made),
        Err(Refused { slots: _ }) => Err(NoMemory::new()),
    }
}
