ghost use Rattle.std.specs.Prelude.{◌≡◌, IfOk, OnOk};
ghost use Rattle.oci_manifest.specs.Manifest.{distributed_once};
ghost use Rattle.oci_manifest.specs.Reading.{with_successor, Remembers};

use crate::key::Key;
use crate::kind::is_undistributed_type;
use oci_digest::NoMemory;
use std::alloc::Global;
use std::collections::BTreeSet;

/// Appends `key` to `kept` if it is distributed and not in `seen`. `seen` has the keys of `kept`.
fn keep(kept: &mut Vec<Key>, seen: &mut BTreeSet<Key>, key: Key) -> Result<(), NoMemory>
    requires { Remembers seen.old kept.old.items }
    ensures kept { OnOk result (kept.new.items ≡ with_successor kept.old.items key) }
    ensures remembers { OnOk result (Remembers seen.new kept.new.items) }
{
    if !is_undistributed_type(key.media_type()) && seen.insert(key.try_clone()?)? {
        kept.push(key)?;
    }
    Ok(())
}

/// Returns the keys that are distributed, each once, at its first place. Makes O(n log n)
/// comparisons.
#[tactic(auto, using(crate::proofs::Keys::distributed_once_push))]
pub(crate) fn keep_distributed(alloc: Global, keys: Vec<Key>) -> Result<Vec<Key>, NoMemory>
    ensures { IfOk result (λ kept. kept.items ≡ distributed_once keys.items) }
{
    let mut kept = Vec::new(alloc);
    let mut seen = BTreeSet::new(alloc);
    for key in keys {
        keep(&mut kept, &mut seen, key)?;
    }
    Ok(kept)
}
