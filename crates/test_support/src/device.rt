ghost use Rattle.std.specs.Prelude.{◌≡◌, true, Some, IfSome, OnOk, OnErr};
ghost use Rattle.test_support.specs.Files.{written, Changes};
ghost use Rattle.oci_store.specs.Content.{Matches};
ghost use Rattle.oci_store.specs.Keyed.{has_key, value_at};

use bytes::Bytes;
use oci_digest::{Digest, NoMemory};
use oci_manifest::Key;
use oci_store::{CheckedContent, Dest, Entries, FetchFault, MemoryDraft, PushFault, Source, Store};
use std::alloc::Global;
use std::collections::BTreeMap;
use std::marker::Model;
use std::sync::atomic::{AtomicU64, Ordering};

/// A device that counts its puts and gets, and can fail one of each.
#[derive(Drop)]
pub struct Device {
    puts: AtomicU64,
    gets: AtomicU64,
    failing_put: Option<u64>,
    failing_get: Option<u64>,
}

impl Device {
    /// Creates a device that fails the put and the get with these numbers, counted from 0.
    pub fn failing(put: Option<u64>, get: Option<u64>) -> Device {
        Device {
            puts: AtomicU64::new(0),
            gets: AtomicU64::new(0),
            failing_put: put,
            failing_get: get,
        }
    }

    /// Returns the number of requested puts.
    pub fn puts(&self) -> u64 {
        self.puts.load(Ordering::SeqCst)
    }

    /// Counts a put, and returns whether it succeeds.
    fn passes_put(&self) -> bool {
        self.failing_put != Some(self.puts.fetch_add(1, Ordering::SeqCst))
    }

    /// Counts a get, and returns whether it succeeds.
    fn passes_get(&self) -> bool {
        self.failing_get != Some(self.gets.fetch_add(1, Ordering::SeqCst))
    }
}

/// A store on a [`Device`], with one file per digest. A fetch returns the current bytes of the
/// file.
#[derive(Drop)]
pub struct DeviceStore<'d> {
    alloc: Global,
    device: &'d Device,
    held: Entries,
    files: BTreeMap<Digest, Bytes>,
    failures: u64,
}

impl<'d> Model for DeviceStore<'d> {
    ghost use Rattle.std.specs.Prelude.{List, ℕ};
    ghost use Rattle.oci_store.specs.Content.{Entry};
    ghost use Rattle.test_support.specs.Files.{Files};

    ghost Value = { List Entry × Files × ℕ };

    ghost view = { λ s. (s.held, s.files.entries, s.failures) };
}

impl<'d> DeviceStore<'d> {
    /// Creates an empty store on a device.
    pub fn new(alloc: Global, device: &'d Device) -> DeviceStore<'d> {
        DeviceStore {
            alloc,
            device,
            held: Entries::new(alloc),
            files: BTreeMap::new(alloc),
            failures: 0,
        }
    }

    /// Returns whether the key is held.
    fn holds(&self, key: &Key) -> bool
        ensures held { result ≡ has_key (written self.now.1 self.now.0) key.now }
        ensures pushed { IfSome (value_at self.now.0 key.now) (Matches key.now) }
    {
        self.held.content(key).is_some()
    }

    /// Returns the current bytes of the file of a key's digest, and none if there is no file.
    fn bytes_of(&self, key: &Key) -> &[u8]
        ensures { has_key (written self.now.1 self.now.0) key.now ≡ true
            → value_at (written self.now.1 self.now.0) key.now ≡ Some result.now }
    {
        match self.files.get(key.digest()) {
            Some(bytes) => bytes.as_slice(),
            None => &[],
        }
    }
}

impl<'d> Store for DeviceStore<'d> {
    ghost use Rattle.std.specs.Prelude.{◌≡◌, true, [], ⊤};
    ghost use Rattle.std.proofs.Common.{sym, ap, ◌∙◌};
    ghost use Rattle.test_support.specs.Files.{written, keys_of-written};
    ghost use Rattle.oci_store.specs.Graph.{nodes_of};
    ghost use Rattle.oci_store.specs.GraphLaws.{keys_of-nodes_of};

    ghost state = { λ s. record {
      nodes = nodes_of s.0;
      entries = written s.1 s.0;
      tags = [];
      name = [];
      lasts = λ entries tags. ⊥;
      failures = s.2;
      fails_at = λ k. true;
      is_honest = ⊤;
      is_sound = written s.1 s.0 ≡ s.0;
      is_halted = ⊥;
    } };

    ghost same_keys = { λ s. keys_of-nodes_of s.0 ∙ sym (keys_of-written s.1 s.0) };

    ghost trusted = { λ s _. tt };

    ghost listed = { λ s sound. ap nodes_of (sym sound) };
}

impl<'d> Source for DeviceStore<'d> {
    fn exists(&self, key: &Key) -> bool {
        self.holds(key)
    }

    fn may_fail(&self, _key: &Key) -> bool {
        true
    }

    fn fetch(&self, key: &Key) -> Result<Bytes, FetchFault> {
        if !self.holds(key) {
            return Err(FetchFault::NotFound);
        }
        if !self.device.passes_get() {
            return Err(FetchFault::Device);
        }
        let bytes = self.bytes_of(key);
        if !key.matches(bytes) {
            return Err(FetchFault::Corrupt);
        }
        Bytes::copy_from_slice(self.alloc, bytes).map_err(|_| FetchFault::Memory)
    }
}

impl<'d> Dest for DeviceStore<'d> {
    ghost use Rattle.std.specs.Prelude.{⊤};

    ghost shares = { ⊤ };

    fn has(&self, key: &Key) -> bool {
        self.held.content(key).is_some()
    }

    fn count(&self) -> usize {
        self.held.len()
    }

    fn missing(&self) -> Result<Option<(Key, Key)>, NoMemory> {
        self.held.graph().first_missing_successor()
    }

    fn push_checked(&mut self, content: CheckedContent) -> Result<usize, PushFault> {
        self.held.graph().check_closed(&content)?;
        let bytes = content.bytes().as_slice();
        if !self.device.passes_put() {
            self.failures = self.failures.saturating_add(1);
            // The put stops halfway.
            let half = &bytes[..bytes.len() / 2];
            let _ = put(self.alloc, &mut self.files, content.key(), half);
            return Err(PushFault::Device);
        }
        put(self.alloc, &mut self.files, content.key(), bytes)?;
        Ok(self.held.push(content)?)
    }

    type Draft = MemoryDraft;

    fn draft(&self, _key: &Key) -> Result<MemoryDraft, NoMemory> {
        Ok(MemoryDraft::new(self.alloc))
    }

    fn push_draft(&mut self, key: &Key, draft: MemoryDraft) -> Result<usize, PushFault> {
        let content = draft.into_content(key)?;
        self.push_checked(content)
    }

    fn failures(&self) -> u64 {
        self.failures
    }
}

/// Writes bytes to the file of a key's digest.
fn put(
    alloc: Global,
    files: &mut BTreeMap<Digest, Bytes>,
    key: &Key,
    bytes: &[u8],
) -> Result<(), NoMemory>
    ensures put { OnOk result (Changes files.old.entries files.new.entries key.now.digest
        bytes.now) }
    ensures refused { OnErr result (files.new.entries ≡ files.old.entries) }
{
    let bytes = Bytes::copy_from_slice(alloc, bytes)?;
    files.insert(*key.digest(), bytes)?;
    Ok(())
}
