ghost use Rattle.std.specs.Prelude.{◌≡◌, ◌⊎◌, [], ℕ, List, IfOk, IfErr, OnOk, IsErrOf};
ghost use Rattle.oci_store.specs.Content.{Matches};
ghost use Rattle.oci_layout_store.specs.Blobs.{blob_path};
ghost use Rattle.oci_dir.specs.Device.{Puts, Same};
ghost use Rattle.oci_layout_store.specs.Layout.{OnlyBlob, SameMemory};
ghost use Rattle.oci_layout_store.specs.Refusal.{IsPutFault};

use crate::fault::LayoutFault;
use crate::layout::Layout;
use crate::layout::blob::blob_path;
use oci_digest::NoMemory;
use oci_dir::Dir;
use oci_manifest::Key;
use oci_store::{CheckedContent, Drafting};

impl<D: Dir> Layout<D> {
    /// Puts the bytes of a content in the file of its digest again, whatever is there. The held
    /// keys, the tags and what the index says stay.
    ///
    /// # Errors
    ///
    /// - 74 `Device` if the file could not be put. It is then as it was, or has the bytes.
    /// - 76 `Memory` if memory runs out.
    pub fn replace(&mut self, content: &CheckedContent) -> Result<(), LayoutFault>
        ensures replaced { OnOk result ((D.device self.old.dir).is_honest
            → Puts (D.device self.old.dir).file (D.device self.new.dir).file
            (blob_path content.now.0.digest) content.now.1) }
        ensures whole { (D.device self.old.dir).is_honest
            → Same (D.device self.old.dir).file (D.device self.new.dir).file
            ⊎ Puts (D.device self.old.dir).file (D.device self.new.dir).file
            (blob_path content.now.0.digest) content.now.1 }
        ensures memory { SameMemory self.old self.new }
        ensures only { OnlyBlob D.device self.old self.new content.now.0.digest }
        ensures refused { IfErr result (IsPutFault (D.device self.old.dir).failures
            (D.device self.new.dir).failures) }
    {
        let mut draft = self.fresh_draft(content.key())?;
        draft.append(content.bytes().as_slice())?;
        self.replace_draft(content.key(), draft)
    }

    /// Creates an empty draft to [replace](Layout::replace_draft) the file of a key with. All of
    /// its bytes are written, also those that the file begins with already.
    ///
    /// # Errors
    ///
    /// `NoMemory` if memory runs out.
    pub fn fresh_draft(&self, key: &Key) -> Result<D::Draft, NoMemory>
        ensures { IfOk result (λ draft. D.Draft.drafted draft []) }
    {
        let path = blob_path(self.alloc, key.digest())?;
        self.dir.fresh_draft(&path)
    }

    /// Puts the bytes of a draft, which match a key, in the file of the key again, whatever is
    /// there. The held keys, the tags and what the index says stay.
    ///
    /// # Errors
    ///
    /// - 74 `Device` if the file could not be put, or the draft is lost. The file is then as it
    ///   was, or has the bytes.
    /// - 76 `Memory` if memory runs out.
    pub fn replace_draft(&mut self, key: &Key, draft: D::Draft) -> Result<(), LayoutFault>
        requires matching { D.Draft.is_lost draft
            ⊎ ((bytes : List ℕ) × D.Draft.drafted draft bytes × Matches key.now bytes) }
        ensures replaced { (bytes : List ℕ) → D.Draft.drafted draft bytes
            → OnOk result ((D.device self.old.dir).is_honest
            → Puts (D.device self.old.dir).file (D.device self.new.dir).file
            (blob_path key.now.digest) bytes) }
        ensures whole { (bytes : List ℕ) → D.Draft.drafted draft bytes
            → (D.device self.old.dir).is_honest
            → Same (D.device self.old.dir).file (D.device self.new.dir).file
            ⊎ Puts (D.device self.old.dir).file (D.device self.new.dir).file
            (blob_path key.now.digest) bytes }
        ensures lost { D.Draft.is_lost draft → OnOk result ⊥ }
        ensures lost_same { D.Draft.is_lost draft → (D.device self.old.dir).is_honest
            → Same (D.device self.old.dir).file (D.device self.new.dir).file }
        ensures memory { SameMemory self.old self.new }
        ensures only { OnlyBlob D.device self.old self.new key.now.digest }
        ensures refused { IfErr result (IsPutFault (D.device self.old.dir).failures
            (D.device self.new.dir).failures) }
    {
        let path = blob_path(self.alloc, key.digest())?;
        self.stated = None;
        match self.dir.restore(&path, draft) {
            Ok(()) => Ok(()),
            Err(fault) => Err(LayoutFault::from(fault)),
        }
    }

    /// Returns whether a folder with contents stands at the place of a key's file, so that the file
    /// cannot be put.
    ///
    /// # Errors
    ///
    /// - 74 `Device` if that could not be found out.
    /// - 76 `Memory` if memory runs out.
    pub fn is_blocked(&self, key: &Key) -> Result<bool, LayoutFault> {
        let path = blob_path(self.alloc, key.digest())?;
        match self.dir.is_blocked(&path) {
            Ok(blocked) => Ok(blocked),
            Err(fault) => Err(LayoutFault::from(fault)),
        }
    }
}
