//! Counts by key.

ghost use Rattle.std.specs.Prelude.{◌+◌, ◌^◌, ◌<◌, OnOk, Some};
ghost use Rattle.std.specs.BTreeMap.{Updates, get};
ghost use Rattle.std.specs.Map.{count_at};

use lwb_base::Memory;
use std::collections::BTreeMap;

/// Counts one more of the key.
pub(crate) fn count_one<K: Ord + Copy>(counts: &mut BTreeMap<K, u32>, key: K) -> Result<(), Memory>
    requires { count_at (get K.cmp counts.old) key + 1 < 2 ^ 32 }
    ensures { OnOk result (Updates K.cmp counts.old counts.new key (Some (count_at (get K.cmp counts.old) key + 1))) }
{
    let count = counts.get(&key).copied().unwrap_or(0);
    counts.insert(key, count + 1)?;
    Ok(())
}
