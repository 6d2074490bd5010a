ghost use Rattle.std.specs.Prelude.{◌≡◌, ◌≢◌, ◌↔◌, [], true, false, IfOk, OnOk, OnErr, IsErrOf, IfNone, IfSome, MatchOption};
ghost use Rattle.std.specs.Cmp.Lexicographic.{slice_cmp};
ghost use Rattle.std.specs.List.Sorted.{IsStrictlySortedBy};
ghost use Rattle.std.specs.Map.{keys_of};
ghost use Rattle.std.specs.Option.{option_copied};
ghost use Rattle.std.specs.Ordering.{nat_cmp};
ghost use Rattle.oci_digest.specs.Digest.{is_digest};
ghost use Rattle.oci_manifest.specs.Descriptor.{Descriptor};
ghost use Rattle.oci_store.specs.Keyed.{has_key};
ghost use Rattle.oci_store.specs.Tags.{
  by_bytes,
  set_tag,
  tag_at,
  without_tag,
  AnswersTag,
  AnswersUntag,
  AreNames,
  IsResolved,
  Resolves,
};

use crate::fault::RefFault;
use crate::graph::Graph;
use oci_digest::{Digest, NoMemory};
use oci_manifest::Key;
use std::alloc::Global;
use std::collections::BTreeMap;
use std::marker::Model;

/// The tags of a store: names of keys.
#[derive(Drop)]
pub struct Tags {
    alloc: Global,
    keys: BTreeMap<String, Key>,
}

impl Model for Tags {
    ghost use Rattle.oci_store.specs.Tags.{Tags, by_bytes};

    ghost Value = { Tags };

    ghost view = { λ n. by_bytes n.keys.entries };
}

impl Tags {
    /// Creates an empty set of tags.
    pub fn new(alloc: Global) -> Tags
        ensures { result ≡ [] }
    {
        Tags {
            alloc,
            keys: BTreeMap::new(alloc),
        }
    }

    /// Returns the key of a tag.
    pub fn get(&self, name: &str) -> Option<&Key>
        ensures { option_copied result ≡ tag_at self.now name.now }
    {
        self.keys.get(name)
    }

    /// Tags a key. A tag that exists is moved.
    ///
    /// # Errors
    ///
    /// Returns [`NoMemory`] if an allocation fails. The tags are then unchanged.
    pub fn set(&mut self, name: &str, key: &Key) -> Result<(), NoMemory>
        ensures set { OnOk result (self.new ≡ set_tag self.old name.now key.now) }
        ensures refused { OnErr result (self.new ≡ self.old) }
    {
        let name = String::from_str(self.alloc, name)?;
        let key = key.try_clone()?;
        self.keys.insert(name, key)?;
        Ok(())
    }

    /// Returns the names and their keys, in byte order of the names.
    ///
    /// # Errors
    ///
    /// Returns [`NoMemory`] if an allocation fails.
    pub fn to_vec(&self) -> Result<Vec<(String, Key)>, NoMemory>
        ensures exact { IfOk result (λ tags. by_bytes tags.items ≡ self.now) }
        ensures order { IfOk result (λ tags. IsStrictlySortedBy (slice_cmp nat_cmp)
            (keys_of (by_bytes tags.items))) }
    {
        let mut tags = Vec::new(self.alloc);
        for (name, key) in self.keys.iter() {
            tags.push((name.clone()?, key.try_clone()?))?;
        }
        Ok(tags)
    }

    /// Tags a key of a graph. A tag that exists is moved.
    ///
    /// # Errors
    ///
    /// - 35 `EmptyReference`: the name is empty. Checked first.
    /// - 37 `NotHeld`: the key is not in the graph.
    /// - 38 `Memory`: an allocation failed.
    ///
    /// An error changes nothing.
    pub fn tag(&mut self, graph: &Graph, key: &Key, name: &str) -> Result<(), RefFault>
        requires names { AreNames graph.now self.old }
        ensures tagged { OnOk result (self.new ≡ set_tag self.old name.now key.now) }
        ensures answer { AnswersTag graph.now key.now name.now result }
        ensures refused { OnErr result (self.new ≡ self.old) }
        ensures names { AreNames graph.now self.new }
    {
        if name.is_empty() {
            return Err(RefFault::EmptyReference);
        }
        if !graph.holds(key) {
            return Err(RefFault::NotHeld);
        }
        Ok(self.set(name, key)?)
    }

    /// Removes a tag, and returns the key that it named.
    ///
    /// # Errors
    ///
    /// - 35 `EmptyReference`: the name is empty. Checked first.
    /// - 36 `UnknownReference`: there is no such tag. The text of a digest is not one.
    ///
    /// An error changes nothing. Does not allocate.
    pub fn untag(&mut self, graph: &Graph, name: &str) -> Result<Key, RefFault>
        requires names { AreNames graph.now self.old }
        ensures untagged { OnOk result (self.new ≡ without_tag self.old name.now) }
        ensures answer { AnswersUntag self.old name.now result }
        ensures refused { OnErr result (self.new ≡ self.old) }
        ensures names { AreNames graph.now self.new }
        ensures memory { IsErrOf result RefFault.Memory → ⊥ }
    {
        match name {
            "" => Err(RefFault::EmptyReference),
            name => self.remove(name).ok_or(RefFault::UnknownReference),
        }
    }

    /// Removes a tag. Returns the key that it named.
    fn remove(&mut self, name: &str) -> Option<Key>
        ensures named { result ≡ tag_at self.old name.now }
        ensures removed { self.new ≡ without_tag self.old name.now }
        ensures unchanged { IfNone result (self.new ≡ self.old) }
    {
        // The contract of `len` states that the names are in order.
        let _ = self.keys.len();
        self.keys.remove(name)
    }

    /// Returns the key that a reference resolves to. A tag with that name has precedence.
    /// Otherwise, if the reference is the text of a digest, this is the least key of the graph with
    /// that digest.
    ///
    /// # Errors
    ///
    /// - 35 `EmptyReference`: the reference is empty. Checked first.
    /// - 36 `UnknownReference`: no tag has this name, and no key of the graph this digest.
    /// - 38 `Memory`: an allocation failed.
    pub fn resolve(&self, graph: &Graph, reference: &str) -> Result<Key, RefFault>
        requires names { AreNames graph.now self.now }
        ensures found { IfOk result (Resolves (keys_of graph.now) self.now reference.now) }
        ensures there { IfOk result (λ key. has_key graph.now key ≡ true) }
        ensures empty { IsErrOf result RefFault.EmptyReference ↔ (reference.now ≡ []) }
        ensures unknown { IsErrOf result RefFault.UnknownReference
            ↔ ((reference.now ≢ [])
            × ((k : Descriptor) → Resolves (keys_of graph.now) self.now reference.now k → ⊥)) }
        ensures held { IsErrOf result RefFault.NotHeld → ⊥ }
    {
        if reference.is_empty() {
            return Err(RefFault::EmptyReference);
        }
        match named(graph, self, reference) {
            Some(key) => Ok(key.try_clone()?),
            None => Err(RefFault::UnknownReference),
        }
    }
}

/// Returns the key that a reference resolves to.
fn named<'s>(graph: &'s Graph, tags: &'s Tags, reference: &str) -> Option<&'s Key>
    requires names { AreNames graph.now tags.now }
    ensures resolved { IsResolved (keys_of graph.now) tags.now reference.now
        (option_copied result) }
    ensures there { IfSome (option_copied result) (λ key. has_key graph.now key ≡ true) }
{
    if let Some(key) = tags.get(reference) {
        return Some(key);
    }
    // The contract of `len` states that the graph's keys are valid and distinct.
    let _ = graph.len();
    let Some(digest) = parsed(reference) else {
        return None;
    };
    graph.least_with(&digest)
}

/// Returns the digest with this text.
fn parsed(text: &str) -> Option<Digest>
    ensures { MatchOption result (is_digest text.now ≡ false) (λ digest. digest ≡ text.now) }
{
    Digest::parse(text).ok()
}
