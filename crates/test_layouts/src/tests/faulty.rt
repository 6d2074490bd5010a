//! A directory in memory with failures or changes.

ghost use Rattle.std.specs.Prelude.{◌≡◌, None, ⊤};
ghost use Rattle.oci_dir.specs.Crash.{LeavesPut};
ghost use Rattle.oci_dir.specs.Device.{Touches};
ghost use Rattle.oci_dir.specs.Memory.{device_of};

use bytes::Bytes;
use oci_digest::NoMemory;
use oci_layout::{Dir, DirFault, MemDir};
use oci_store::MemoryDraft;
use std::sync::atomic::{AtomicU64, Ordering};

/// The reads or puts that fail. They are counted from 0.
#[derive(Clone, Copy)]
pub(crate) enum Failing {
    /// Nothing.
    Nothing,
    /// The read with this number.
    Read(u64),
    /// Each read after this many. A call of `exists` counts as a read.
    LaterReads(u64),
    /// The put with this number, which leaves other bytes. A replacement counts as a put, and leaves
    /// the old file; so does a draft that is kept where there is a file.
    Put(u64),
}

/// A file that has other bytes after some reads of the directory.
#[derive(Drop)]
pub(crate) struct Change {
    pub(crate) path: String,
    pub(crate) other: Bytes,
    /// The number of reads that return the right bytes.
    pub(crate) right: u64,
}

/// A directory whose reads or puts fail, or whose file changes between reads. It is honest if no
/// file changes.
pub(crate) struct FaultyDir {
    dir: MemDir,
    failing: Failing,
    change: Option<Change>,
    /// The number of reads so far.
    reads: AtomicU64,
    /// The number of puts so far.
    puts: u64,
    failures: u64,
}

/// Written out, so that a proof has one call where it is dropped.
impl Drop for FaultyDir {
    fn drop(self) {
        let FaultyDir {
            dir: _dir,
            failing: _failing,
            change: _change,
            reads: _reads,
            puts: _,
            failures: _,
        } = self;
    }
}

impl FaultyDir {
    /// Creates a directory with this failure.
    pub(crate) fn failing(dir: MemDir, failing: Failing) -> FaultyDir {
        FaultyDir {
            dir,
            failing,
            change: None,
            reads: AtomicU64::new(0),
            puts: 0,
            failures: 0,
        }
    }

    /// Creates a directory with a file that changes.
    pub(crate) fn changing(dir: MemDir, change: Change) -> FaultyDir {
        FaultyDir {
            dir,
            failing: Failing::Nothing,
            change: Some(change),
            reads: AtomicU64::new(0),
            puts: 0,
            failures: 0,
        }
    }

    /// Returns the directory as it is, with the files that were put.
    pub(crate) fn memory(&self) -> &MemDir {
        &self.dir
    }

    /// Returns the number of reads so far.
    pub(crate) fn reads(&self) -> u64 {
        self.reads.load(Ordering::SeqCst)
    }

    /// Counts a read. Returns its number.
    fn next_read(&self) -> u64 {
        self.reads.fetch_add(1, Ordering::SeqCst)
    }

    fn fails_read(&self, number: u64) -> bool {
        match self.failing {
            Failing::Read(failing) => number == failing,
            Failing::LaterReads(passing) => number >= passing,
            _ => false,
        }
    }

    fn fails_look(&self) -> bool {
        match self.failing {
            Failing::LaterReads(passing) => self.next_read() >= passing,
            _ => false,
        }
    }

    /// Returns the changed bytes that the read with this number finds, if it does.
    fn other(&self, path: &str, number: u64) -> Option<&Bytes>
        ensures { self.now.change ≡ None → result ≡ None }
    {
        match &self.change {
            Some(change) if number >= change.right && path == change.path.as_str() => {
                Some(&change.other)
            }
            _ => None,
        }
    }

    fn fails_put(&self) -> bool {
        match self.failing {
            Failing::Put(failing) => self.puts == failing,
            _ => false,
        }
    }
}

impl Dir for FaultyDir {
    ghost use Rattle.std.specs.Prelude.{true, None};
    ghost use Rattle.oci_dir.specs.Memory.{device_of};

    ghost device = { λ d. record {
      file = (device_of d.dir).file;
      draft = (device_of d.dir).draft;
      link = None;
      may_leave = (device_of d.dir).may_leave;
      is_honest = d.change ≡ None;
      stays = λ honest path. (device_of d.dir).stays tt path;
      fails_reads = true;
      failures = d.failures;
    } };

    fn read(&self, path: &str) -> Result<Option<Bytes>, DirFault> {
        let number = self.next_read();
        if self.fails_read(number) {
            return Err(DirFault::Failed);
        }
        match self.other(path, number) {
            Some(bytes) => Ok(Some(bytes.clone()?)),
            None => self.dir.read(path),
        }
    }

    fn exists(&self, path: &str) -> Result<bool, DirFault> {
        if self.fails_look() {
            return Err(DirFault::Failed);
        }
        self.dir.exists(path)
    }

    fn size(&self, path: &str) -> Result<Option<u64>, DirFault> {
        if self.fails_look() {
            return Err(DirFault::Failed);
        }
        self.dir.size(path)
    }

    /// If it fails, it leaves the first half of the bytes.
    fn put(&mut self, path: &str, bytes: &[u8]) -> Result<(), DirFault> {
        let fails = self.fails_put();
        self.puts = self.puts.saturating_add(1);
        if fails {
            let _ = self.dir.put(path, &bytes[..bytes.len() / 2]);
            self.failures = self.failures.saturating_add(1);
            return Err(DirFault::Failed);
        }
        match self.dir.put(path, bytes) {
            Ok(()) => Ok(()),
            Err(DirFault::Memory) => Err(DirFault::Memory),
            Err(DirFault::Failed) => {
                self.failures = self.failures.saturating_add(1);
                Err(DirFault::Failed)
            }
        }
    }

    /// If it fails, it changes nothing.
    fn replace(&mut self, path: &str, bytes: &[u8]) -> Result<(), DirFault> {
        let fails = self.fails_put();
        self.puts = self.puts.saturating_add(1);
        if fails {
            self.failures = self.failures.saturating_add(1);
            return Err(DirFault::Failed);
        }
        match self.dir.replace(path, bytes) {
            Ok(()) => Ok(()),
            Err(DirFault::Memory) => Err(DirFault::Memory),
            Err(DirFault::Failed) => {
                self.failures = self.failures.saturating_add(1);
                Err(DirFault::Failed)
            }
        }
    }

    fn settle(&mut self, paths: &[String]) -> Result<(), DirFault> {
        self.dir.settle(paths)
    }

    type Draft = MemoryDraft;

    fn draft(&self, path: &str) -> Result<MemoryDraft, NoMemory> {
        self.dir.draft(path)
    }

    /// If it fails and there was no file, it leaves one byte.
    fn keep(&mut self, path: &str, draft: MemoryDraft) -> Result<(), DirFault> {
        let fails = self.fails_put();
        self.puts = self.puts.saturating_add(1);
        if fails {
            leave(&mut self.dir, path, b"f");
            self.failures = self.failures.saturating_add(1);
            return Err(DirFault::Failed);
        }
        match self.dir.keep(path, draft) {
            Ok(()) => Ok(()),
            Err(DirFault::Memory) => Err(DirFault::Memory),
            Err(DirFault::Failed) => {
                self.failures = self.failures.saturating_add(1);
                Err(DirFault::Failed)
            }
        }
    }

    /// If it fails, it changes nothing.
    fn restore(&mut self, path: &str, draft: MemoryDraft) -> Result<(), DirFault> {
        self.replace(path, &draft.into_bytes())
    }

    fn may_fail_reads(&self) -> bool {
        true
    }

    fn failures(&self) -> u64 {
        self.failures
    }
}

/// Leaves these bytes of a put that fails, if there was no file.
fn leave(dir: &mut MemDir, path: &str, bytes: &[u8])
    ensures left { LeavesPut (device_of dir.old) (device_of dir.new) path.now (λ bytes. ⊤) }
    ensures other { Touches (device_of dir.old).file (device_of dir.new).file path.now }
{
    if let Ok(false) = dir.exists(path) {
        let _ = dir.put(path, bytes);
    }
}
