// Maps of std.
ghost use Rattle.std.specs.Prelude.{◌≡◌, None, Some, IfOk, OnOk, OnErr};
ghost use Rattle.std.specs.BTreeMap.{IsUnchanged, Updates, get};

use crate::no_memory::NoMemory;
use std::collections::BTreeMap;

/// Gives a key this value, and returns the value that it had.
pub fn map_insert<K: Ord + Drop, V: Drop>(
    map: &mut BTreeMap<K, V>,
    key: K,
    value: V,
) -> Result<Option<V>, NoMemory>
    ensures old { IfOk result (λ old. old ≡ get K.cmp map.old key) }
    ensures updates { OnOk result (Updates K.cmp map.old map.new key (Some value)) }
    ensures absent { OnErr result (get K.cmp map.old key ≡ None) }
    ensures err { OnErr result (IsUnchanged map.old map.new) }
{
    match map.insert(key, value) {
        Ok(old) => Ok(old),
        Err(_) => Err(NoMemory::new()),
    }
}
