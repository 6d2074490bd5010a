ghost use Rattle.std.specs.Prelude.{◌≡◌, option_copied};
ghost use Rattle.oci_verify.specs.Corrupt.{is_asked};

use oci_manifest::Key;
use std::collections::BTreeSet;

/// Returns whether a key is among those that are asked for: the keys of a set, or all without a set.
pub fn is_asked(asked: Option<&BTreeSet<Key>>, key: &Key) -> bool
    ensures { result ≡ is_asked (option_copied asked.entry) key.now }
{
    match asked {
        Some(keys) => keys.contains(key),
        None => true,
    }
}
