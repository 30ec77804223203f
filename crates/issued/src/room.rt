//! Room in a map, in which nothing is kept yet.

ghost use Rattle.std.specs.Prelude.{◌≡◌, OnErr, OnOk};
ghost use Rattle.issued.specs.Room.{MakesRoom};

use std::alloc::AllocError;
use std::collections::BTreeMap;

/// Makes room for a key that has none.
pub(crate) fn make_room<K: Ord + Drop, V: Drop>(
    map: &mut BTreeMap<K, Option<V>>,
    key: K,
) -> Result<(), AllocError>
    ensures ok { OnOk result (MakesRoom K.cmp key map.old.entries map.new.entries) }
    ensures err { OnErr result (map.new.entries ≡ map.old.entries) }
{
    if !map.contains_key(&key) {
        map.insert(key, None)?;
    }
    Ok(())
}
