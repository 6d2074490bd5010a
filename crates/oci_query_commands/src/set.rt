ghost use Rattle.std.specs.Prelude.{◌≡◌, IfOk};
ghost use Rattle.std.specs.BTreeSet.{contains};
ghost use Rattle.oci_manifest.specs.Descriptor.{Descriptor, is_among, key_cmp};

use oci_digest::NoMemory;
use oci_manifest::Key;
use std::alloc::Global;
use std::collections::BTreeSet;

/// Returns the set of these keys.
pub(crate) fn set_of(alloc: Global, keys: &[Key]) -> Result<BTreeSet<Key>, NoMemory>
    ensures { IfOk result (λ set. (k : Descriptor) → contains key_cmp set k
        ≡ is_among keys.now k) }
{
    let mut set = BTreeSet::new(alloc);
    for key in keys {
        set.insert(key.try_clone()?)?;
    }
    Ok(set)
}
