//! Checks whether keys are distinct.
ghost use Rattle.std.specs.Prelude.{◌≡◌, ◌≢◌, ◌↔◌, AllPairs, IfOk, IsTrue};
ghost use Rattle.std.specs.Bool.{Decides};

use crate::memory::NoMemory;
use std::alloc::Global;
use std::collections::HashSet;
use std::hash::Hash;

/// Whether the items have distinct keys. It allocates a set of the keys.
pub fn are_distinct<T, K, F>(alloc: Global, items: &[T], key: F) -> Result<bool, NoMemory>
where
    K: Eq + Hash + Drop,
    F: Fn(&T) -> K + Drop,
    requires { F.IsAlwaysCallable key }
    ensures { (key_of : T → K) → ((x : _) (r : K) → F.post key x r → r ≡ key_of x.now)
        → ((a b : K) → Decides (K.eq a b) (a ≡ b))
        → IfOk result (λ distinct. IsTrue distinct ↔ AllPairs (λ x y. key_of x ≢ key_of y) items.now) }
{
    let keys: HashSet<K> = items.iter().map(|item| key(item)).collect(alloc)?;
    Ok(keys.len() == items.len())
}
