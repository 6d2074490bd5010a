ghost use Rattle.std.specs.Prelude.{◌≡◌, ◌≤◌, length, Some, None, IfOk, IfSome, OnOk, IsErrOf};
ghost use Rattle.oci_store.specs.Content.{Matches};
ghost use Rattle.oci_store.specs.Keyed.{value_at};
ghost use Rattle.oci_store.specs.Parts.{IsPart};
ghost use Rattle.oci_layout_store.specs.Blobs.{blob_path, stored, IsFetch, IsNotOf, IsSound};

use crate::layout::Layout;
use crate::layout::blob::{read_blob, read_blob_part};
use bytes::Bytes;
use oci_digest::NoMemory;
use oci_dir::Dir;
use oci_manifest::Key;
use oci_store::{FetchFault, GraphSource, Source, Store};

impl<D: Dir> Store for Layout<D> {
    ghost use Rattle.oci_layout_store.specs.Blobs.{keys_of-stored};
    ghost use Rattle.oci_layout_store.specs.Meaning.{meaning};

    ghost state = { λ s. meaning (D.device s.dir) s.graph s.tags };

    ghost same_keys = { λ s. keys_of-stored (D.device s.dir).file s.graph };

    ghost trusted = { λ s sound. sound.is_honest };

    ghost listed = { λ s sound. sound.listed };
}

impl<D: Dir> Source for Layout<D> {
    fn exists(&self, key: &Key) -> bool {
        self.graph.holds(key)
    }

    fn may_fail(&self, _key: &Key) -> bool {
        true
    }

    /// Returns the bytes of a held key's file, which match the key.
    ///
    /// # Errors
    ///
    /// - 20 `NotFound` if the key is not held.
    /// - 21 `Corrupt` if its file is missing or has other bytes.
    /// - 22 `Device` if a read failed.
    /// - 23 `Memory` if memory runs out.
    fn fetch(&self, key: &Key) -> Result<Bytes, FetchFault>
        ensures matching { IfOk result (λ bytes. Matches key.now bytes) }
        ensures honest { IfOk result (λ bytes. (D.device self.now.dir).is_honest
            → value_at (stored (D.device self.now.dir).file self.now.graph) key.now ≡ Some bytes) }
        ensures cause { IsFetch (D.device self.now.dir) self.now.graph key.now (IsNotOf key.now
            ((D.device self.now.dir).file (blob_path key.now.digest))) result }
        ensures good { IsErrOf result FetchFault.Corrupt → IsSound (D.device self.now.dir).is_honest
            (D.device self.now.dir).file self.now.graph → ⊥ }
    {
        if !self.graph.holds(key) {
            return Err(FetchFault::NotFound);
        }
        read_blob(self.alloc, &self.dir, key)
    }

    /// Returns at most `most` bytes of a held key's file, from position `from` on. Does not check
    /// them.
    ///
    /// # Errors
    ///
    /// Those of `fetch`, but 21 `Corrupt` only if the file is missing.
    fn fetch_part(&self, key: &Key, from: u64, most: usize) -> Result<Bytes, FetchFault>
        ensures short { IfOk result (λ part. length part ≤ most) }
        ensures part { IfOk result (λ part. (D.device self.now.dir).is_honest
            → IsPart (value_at (stored (D.device self.now.dir).file self.now.graph) key.now)
            from most part) }
        ensures cause { IsFetch (D.device self.now.dir) self.now.graph key.now
            ((D.device self.now.dir).file (blob_path key.now.digest) ≡ None) result }
        ensures good { IsErrOf result FetchFault.Corrupt → IsSound (D.device self.now.dir).is_honest
            (D.device self.now.dir).file self.now.graph → ⊥ }
        ensures sound { OnOk result (IsSound (D.device self.now.dir).is_honest
            (D.device self.now.dir).file self.now.graph
            → IfSome (value_at (stored (D.device self.now.dir).file self.now.graph) key.now)
            (Matches key.now)) }
    {
        if !self.graph.holds(key) {
            return Err(FetchFault::NotFound);
        }
        read_blob_part(self.alloc, &self.dir, key, from, most)
    }
}

impl<D: Dir> GraphSource for Layout<D> {
    fn successors(&self, key: &Key) -> Result<Option<Vec<Key>>, NoMemory> {
        self.graph.successors_of(key)
    }

    fn predecessors(&self, key: &Key) -> Result<Vec<Key>, NoMemory> {
        self.graph.predecessors(key)
    }
}
