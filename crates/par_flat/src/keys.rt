ghost use Rattle.std.specs.Prelude.{◌≡◌, ℕ, ◌+◌, ◌≤◌, OnOk, OnErr, length, take};
ghost use Rattle.std.specs.Map.{keys_of};
ghost use Rattle.par_flat.specs.Keys.{insert_keys};

use par_index::{Entries, Index};
use par_laws::{HashKey, MAX_ITEMS, Memory};

/// Adds each of the keys that is not there yet. After a refusal for want of memory some of the first of them were added,
/// and the rest are dropped.
pub fn insert_all<K: HashKey, I: Index>(
    set: &mut Entries<K, (), I>,
    keys: Vec<K>,
) -> Result<(), Memory>
    requires { length set.old + length keys.items ≤ MAX_ITEMS }
    ensures ok { OnOk result (keys_of set.new ≡ insert_keys K.eq (keys_of set.old) keys.items) }
    ensures err { OnErr result ((n : ℕ) × (keys_of set.new ≡ insert_keys K.eq (keys_of set.old) (take n keys.items))) }
{
    for key in keys {
        set.insert(key, ())?;
    }
    Ok(())
}
