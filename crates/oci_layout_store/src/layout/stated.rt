ghost use Rattle.std.specs.Prelude.{◌≡◌, ◌++◌, ◌∷◌, [], OnOk};
ghost use Rattle.oci_layout_store.specs.Stated.{ArePaired, with_subject};

use oci_digest::NoMemory;
use oci_manifest::Key;
use std::alloc::Global;

/// What held keys state, each with the key that states it.
#[derive(Drop)]
pub(crate) struct Stated {
    /// The subjects.
    pub(crate) subjects: Vec<(Key, Key)>,
    /// The layers that are listed and not distributed.
    pub(crate) undistributed: Vec<(Key, Key)>,
}

impl Stated {
    /// Returns that nothing is stated. Does not allocate.
    pub(crate) fn none(alloc: Global) -> Stated
        ensures subjects { result.subjects.items ≡ [] }
        ensures undistributed { result.undistributed.items ≡ [] }
    {
        Stated {
            subjects: Vec::new(alloc),
            undistributed: Vec::new(alloc),
        }
    }

    /// Notes the subject of a key, and the layers that it lists and that are not distributed.
    pub(crate) fn note(
        &mut self,
        key: &Key,
        subject: Option<Key>,
        undistributed: &[Key],
    ) -> Result<(), NoMemory>
        ensures subjects { OnOk result (self.new.subjects.items
            ≡ with_subject self.old.subjects.items key.now subject) }
        ensures undistributed { OnOk result (ArePaired self.old.undistributed.items key.now
            undistributed.now self.new.undistributed.items) }
    {
        add_subject(key, subject, &mut self.subjects)?;
        add_pairs(key, undistributed, &mut self.undistributed)
    }
}

/// Adds the pair of a key with its subject, if it has one.
fn add_subject(key: &Key, subject: Option<Key>, pairs: &mut Vec<(Key, Key)>) -> Result<(), NoMemory>
    ensures { OnOk result (pairs.new.items ≡ with_subject pairs.old.items key.now subject) }
{
    match subject {
        Some(subject) => add_pair(key, subject, pairs),
        None => Ok(()),
    }
}

/// Adds the pair of a key with another.
fn add_pair(key: &Key, other: Key, pairs: &mut Vec<(Key, Key)>) -> Result<(), NoMemory>
    ensures { OnOk result (pairs.new.items ≡ pairs.old.items ++ (key.now, other) ∷ []) }
{
    pairs.push((key.try_clone()?, other))?;
    Ok(())
}

/// Adds the pairs of a key with each of these.
fn add_pairs(key: &Key, found: &[Key], pairs: &mut Vec<(Key, Key)>) -> Result<(), NoMemory>
    ensures { OnOk result (ArePaired pairs.old.items key.now found.now pairs.new.items) }
{
    for other in found {
        add_pair(key, other.try_clone()?, pairs)?;
    }
    Ok(())
}
