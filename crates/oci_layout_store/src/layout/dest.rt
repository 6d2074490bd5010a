ghost use Rattle.std.specs.Prelude.{◌≡◌, ⊤, List, ℕ, IsErrOf};
ghost use Rattle.std.specs.Result.{IsErr};
ghost use Rattle.oci_store.specs.Content.{Matches};
ghost use Rattle.oci_store.specs.Parts.{IsLeaf, leaf_check, IsLostPush};
ghost use Rattle.oci_store.specs.Push.{closed_check, IsPush};
ghost use Rattle.oci_layout_store.specs.Layout.{OnlyBlob};
ghost use Rattle.oci_layout_store.specs.Push.{Settles};

use crate::layout::Layout;
use crate::layout::blob::{blob_path, put_blob};
use bytes::Bytes;
use oci_digest::NoMemory;
use oci_dir::{Dir, DirFault};
use oci_manifest::Key;
use oci_store::{CheckedContent, Dest, Graph, PushFault, Store};

impl<D: Dir> Dest for Layout<D> {
    ghost use Rattle.std.specs.Prelude.{⊤};

    ghost shares = { ⊤ };

    fn has(&self, key: &Key) -> bool {
        self.graph.holds(key)
    }

    fn count(&self) -> usize {
        self.graph.len()
    }

    fn missing(&self) -> Result<Option<(Key, Key)>, NoMemory> {
        self.graph.first_missing_successor()
    }

    /// Changes no file but the one of the content's digest, whatever the result.
    fn push_checked(&mut self, content: CheckedContent) -> Result<usize, PushFault>
        ensures pushed { IsPush ⊤ (⟦<Self as Store>⟧.state self.old)
            (⟦<Self as Store>⟧.state self.new)
            content result }
        ensures untouched { IsErr (closed_check self.old.graph content.0 content.1)
            → self.new ≡ self.old }
        ensures halted { IsErrOf result PushFault.Halted → ⊥ }
        ensures only { OnlyBlob D.device self.old self.new content.0.digest }
    {
        self.graph.check_closed(&content)?;
        let (key, bytes, successors) = content.into_parts();
        let path = blob_path(self.alloc, key.digest())?;
        let place = self.graph.len();
        self.stated = None;
        self.graph.push(&key, successors)?;
        let answer = put_blob(&mut self.dir, &path, &bytes);
        settle(&mut self.graph, place, answer)
    }

    /// Changes no file but the one of the key's digest, whatever the result.
    fn push_closed(&mut self, key: &Key, bytes: Bytes) -> Result<usize, PushFault>
        ensures pushed { IsPush ⊤ (⟦<Self as Store>⟧.state self.old)
            (⟦<Self as Store>⟧.state self.new)
            (key.now, bytes) result }
        ensures untouched { IsErr (closed_check self.old.graph key.now bytes)
            → self.new ≡ self.old }
        ensures only { OnlyBlob D.device self.old self.new key.now.digest }
    {
        if self.has(key) {
            return Err(PushFault::AlreadyExists);
        }
        self.push_checked(CheckedContent::check(key, bytes)?)
    }

    type Draft = D::Draft;

    fn draft(&self, key: &Key) -> Result<D::Draft, NoMemory> {
        let path = blob_path(self.alloc, key.digest())?;
        self.dir.draft(&path)
    }

    /// Changes no file but the one of the key's digest, whatever the result.
    fn push_draft(&mut self, key: &Key, draft: D::Draft) -> Result<usize, PushFault>
        requires leaf { IsLeaf key.now }
        ensures pushed { (bytes : List ℕ) → D.Draft.drafted draft bytes → Matches key.now bytes
            → IsPush ⊤ (⟦<Self as Store>⟧.state self.old) (⟦<Self as Store>⟧.state self.new)
            (key.now, bytes) result }
        ensures lost { D.Draft.is_lost draft → IsLostPush (⟦<Self as Store>⟧.state self.old)
            (⟦<Self as Store>⟧.state self.new)
            key.now result }
        ensures untouched { IsErr (leaf_check self.old.graph key.now) → self.new ≡ self.old }
        ensures only { OnlyBlob D.device self.old self.new key.now.digest }
    {
        if self.graph.holds(key) {
            return Err(PushFault::AlreadyExists);
        }
        let path = blob_path(self.alloc, key.digest())?;
        let place = self.graph.len();
        self.stated = None;
        self.graph.push(key, Vec::new(self.alloc))?;
        let answer = self.dir.keep(&path, draft);
        settle(&mut self.graph, place, answer)
    }

    fn failures(&self) -> u64 {
        self.dir.failures()
    }
}

/// Ends a push after its put. Takes back the key that was added last if its file was not put.
fn settle(graph: &mut Graph, place: usize, answer: Result<(), DirFault>) -> Result<usize, PushFault>
    ensures { Settles place graph.old graph.new answer result }
{
    match answer {
        Ok(()) => Ok(place),
        Err(fault) => {
            graph.take_back();
            Err(PushFault::from(fault))
        }
    }
}
