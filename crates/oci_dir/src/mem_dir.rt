ghost use Rattle.std.specs.Prelude.{◌≡◌, ◌↔◌, ◌⊎◌, ℕ, List, true, false, Some, None, IsSome, IfOk, OnOk, OnErr, IsErrOf, MatchOption, Contains};
ghost use Rattle.std.specs.Str.{bytes_eq};
ghost use Rattle.oci_dir.specs.Crash.{IsLeft, IsReplaced, IsSettled, LeavesPut, NoMoreBut, OnlySettles};
ghost use Rattle.oci_dir.specs.Device.{AfterPuts, IsPut, Only, Puts, Same, Touches};
ghost use Rattle.oci_dir.specs.Memory.{Burns, BurnsWhole, IsNew, LeavesDraft, device_of, files_of};
ghost use Rattle.oci_dir.specs.Prunable.{by_name, path_in, IsDraftRemoval, IsName, IsRemoval, ListsFiles, ListsFolder};

use crate::dir::Dir;
use crate::fault::DirFault;
use crate::prunable_dir::PrunableDir;
use bytes::Bytes;
use oci_digest::NoMemory;
use oci_store::MemoryDraft;
use std::alloc::Global;
use std::collections::BTreeMap;

/// A directory in memory. It is honest, and its reads never fail.
#[derive(Drop)]
pub struct MemDir {
    alloc: Global,
    files: BTreeMap<String, Bytes>,
    /// The files as they were settled last.
    settled: BTreeMap<String, Bytes>,
    /// The files that were put and not settled since, each with the first half of the bytes of the
    /// last put. A crash may leave such a file with any bytes, or none of it.
    torn: BTreeMap<String, Bytes>,
    /// The drafts that were left.
    drafts: BTreeMap<String, Bytes>,
    /// The number of puts that still succeed, if there is a fuse.
    fuse: Option<u64>,
    failures: u64,
}

impl MemDir {
    /// Creates an empty directory without a fuse: no put fails.
    pub fn new(alloc: Global) -> MemDir
        ensures { IsNew result None }
    {
        MemDir {
            alloc,
            files: BTreeMap::new(alloc),
            settled: BTreeMap::new(alloc),
            torn: BTreeMap::new(alloc),
            drafts: BTreeMap::new(alloc),
            fuse: None,
            failures: 0,
        }
    }

    /// Creates an empty directory with a fuse: `puts` puts and replacements succeed, and each later
    /// one fails. A put that fails leaves the first half of its bytes, rounded down. A replacement
    /// that fails changes nothing.
    pub fn with_fuse(alloc: Global, puts: u64) -> MemDir
        ensures { IsNew result (Some puts) }
    {
        MemDir {
            alloc,
            files: BTreeMap::new(alloc),
            settled: BTreeMap::new(alloc),
            torn: BTreeMap::new(alloc),
            drafts: BTreeMap::new(alloc),
            fuse: Some(puts),
            failures: 0,
        }
    }
}

impl MemDir {
    /// Returns what a crash may leave of the directory. If it is not `torn`, all is lost that was
    /// not settled: each file is as it was settled last. Otherwise each file is as it is now, but
    /// has only the first half of its bytes if it was put, and not settled since. The drafts stay.
    ///
    /// # Errors
    ///
    /// `NoMemory` if memory runs out.
    pub fn crash(self, torn: bool) -> Result<MemDir, NoMemory>
        ensures left { IfOk result (λ crashed. IsLeft (device_of self) (device_of crashed).file) }
        ensures settled { IfOk result (λ crashed. (path : List ℕ)
            → IsSettled (device_of crashed) path) }
        ensures drafts { IfOk result (λ crashed. Same (device_of self).draft
            (device_of crashed).draft) }
    {
        let alloc = self.alloc;
        let files = left_files(alloc, self.files, self.settled, &self.torn, torn)?;
        let settled = copied(&files)?;
        Ok(MemDir {
            alloc,
            files,
            settled,
            torn: BTreeMap::new(alloc),
            drafts: self.drafts,
            fuse: None,
            failures: 0,
        })
    }

    /// Leaves a draft at a path, as a process does that is killed while it writes. It replaces one
    /// that is there. A fuse does not stop it.
    ///
    /// # Errors
    ///
    /// `NoMemory` if memory runs out. The directory is then unchanged.
    pub fn leave_draft(&mut self, path: &str, bytes: &[u8]) -> Result<(), NoMemory>
        ensures left { LeavesDraft (device_of self.old) (device_of self.new) path.now bytes.now
            result }
        ensures fuse { self.new.fuse ≡ self.old.fuse }
    {
        write(self.alloc, &mut self.drafts, path, bytes)
    }

    /// Settles the file at a path.
    fn settle_file(&mut self, path: &str) -> Result<(), NoMemory>
        ensures only { OnlySettles (device_of self.old) (device_of self.new) }
        ensures settled { OnOk result (IsSettled (device_of self.new) path.now) }
    {
        copy_file(self.alloc, &self.files, &mut self.settled, path)?;
        self.torn.remove(path);
        Ok(())
    }
}

/// Returns what a crash leaves of these files: all as they are now and the torn ones over them, or
/// all as they were settled last.
fn left_files(
    alloc: Global,
    mut files: BTreeMap<String, Bytes>,
    settled: BTreeMap<String, Bytes>,
    torn: &BTreeMap<String, Bytes>,
    is_torn: bool,
) -> Result<BTreeMap<String, Bytes>, NoMemory>
    ensures { IfOk result (λ left. (q : List ℕ) → (files_of left q ≡ files_of files q)
        ⊎ (files_of left q ≡ files_of settled q) ⊎ IsSome (files_of torn.now q)) }
{
    if !is_torn {
        return Ok(settled);
    }
    tear(alloc, torn, &mut files)?;
    Ok(files)
}

/// Returns a copy of these files.
fn copied(files: &BTreeMap<String, Bytes>) -> Result<BTreeMap<String, Bytes>, NoMemory>
    ensures { IfOk result (λ copy. Same (files_of files.now) (files_of copy)) }
{
    Ok(files.clone()?)
}

/// Puts these files over others.
fn tear(
    alloc: Global,
    torn: &BTreeMap<String, Bytes>,
    files: &mut BTreeMap<String, Bytes>,
) -> Result<(), NoMemory>
    ensures { OnOk result ((q : List ℕ) → (files_of files.new q ≡ files_of files.old q)
        ⊎ IsSome (files_of torn.now q)) }
{
    for (path, _) in torn.iter() {
        tear_one(alloc, torn, files, path.as_str())?;
    }
    Ok(())
}

/// Puts one of these files over others.
fn tear_one(
    alloc: Global,
    torn: &BTreeMap<String, Bytes>,
    files: &mut BTreeMap<String, Bytes>,
    path: &str,
) -> Result<(), NoMemory>
    ensures { OnOk result ((q : List ℕ) → (files_of files.new q ≡ files_of files.old q)
        ⊎ IsSome (files_of torn.now q)) }
{
    match torn.get(path) {
        Some(bytes) => write(alloc, files, path, bytes),
        None => Ok(()),
    }
}

impl Dir for MemDir {
    ghost use Rattle.oci_dir.specs.Memory.{device_of};

    ghost device = { device_of };

    fn read(&self, path: &str) -> Result<Option<Bytes>, DirFault> {
        match self.files.get(path) {
            Some(bytes) => Ok(Some(bytes.clone()?)),
            None => Ok(None),
        }
    }

    fn exists(&self, path: &str) -> Result<bool, DirFault> {
        Ok(self.files.contains_key(path))
    }

    fn size(&self, path: &str) -> Result<Option<u64>, DirFault> {
        match self.files.get(path) {
            Some(bytes) => Ok(Some(bytes.len() as u64)),
            None => Ok(None),
        }
    }

    /// Fails if the fuse allows no more puts, and then leaves the first half of the bytes.
    fn put(&mut self, path: &str, bytes: &[u8]) -> Result<(), DirFault>
        ensures put { IsPut (device_of self.old) (device_of self.new) path.now (Only bytes.now)
            result }
        ensures left { NoMoreBut (device_of self.old) (device_of self.new) path.now }
        ensures fuse { Burns self.old self.new path.now bytes.now result }
    {
        match self.fuse {
            Some(0) => {
                let half = &bytes[..bytes.len() / 2];
                write_unsettled(self.alloc, &mut self.torn, &mut self.files, path, half)?;
                self.failures = self.failures.saturating_add(1);
                Err(DirFault::Failed)
            }
            fuse => {
                write_unsettled(self.alloc, &mut self.torn, &mut self.files, path, bytes)?;
                self.fuse = fuse.map(|left| left.saturating_sub(1));
                Ok(())
            }
        }
    }

    /// Fails if the fuse allows no more puts, and then changes nothing.
    fn replace(&mut self, path: &str, bytes: &[u8]) -> Result<(), DirFault>
        ensures replaced { IsReplaced (device_of self.old) (device_of self.new) path.now bytes.now
            result }
        ensures fuse { BurnsWhole self.old self.new result }
    {
        match self.fuse {
            Some(0) => {
                self.failures = self.failures.saturating_add(1);
                Err(DirFault::Failed)
            }
            fuse => {
                write(self.alloc, &mut self.files, path, bytes)?;
                self.fuse = fuse.map(|left| left.saturating_sub(1));
                Ok(())
            }
        }
    }

    fn settle(&mut self, paths: &[String]) -> Result<(), DirFault> {
        for path in paths {
            self.settle_file(path.as_str())?;
        }
        Ok(())
    }

    type Draft = MemoryDraft;

    fn draft(&self, _path: &str) -> Result<MemoryDraft, NoMemory> {
        Ok(MemoryDraft::new(self.alloc))
    }

    /// Like `replace` if there is a file, and otherwise like `put`, with the draft's bytes.
    fn keep(&mut self, path: &str, draft: MemoryDraft) -> Result<(), DirFault>
        ensures put { IsPut (device_of self.old) (device_of self.new) path.now
            (Only draft.bytes.items) result }
        ensures left { LeavesPut (device_of self.old) (device_of self.new) path.now
            (Only draft.bytes.items) }
        ensures fuse { files_of self.old.files path.now ≡ None
            → Burns self.old self.new path.now draft.bytes.items result }
        ensures whole { IsSome (files_of self.old.files path.now)
            → BurnsWhole self.old self.new result }
    {
        let bytes = draft.into_bytes();
        if self.files.contains_key(path) {
            self.replace(path, &bytes)
        } else {
            self.put(path, &bytes)
        }
    }

    /// Like `replace`, with the draft's bytes.
    fn restore(&mut self, path: &str, draft: MemoryDraft) -> Result<(), DirFault>
        ensures replaced { IsReplaced (device_of self.old) (device_of self.new) path.now
            draft.bytes.items result }
        ensures other { Touches (device_of self.old).file (device_of self.new).file path.now }
        ensures device { AfterPuts (device_of self.old) (device_of self.new)
            (IsErrOf result DirFault.Failed) }
        ensures fuse { BurnsWhole self.old self.new result }
    {
        self.replace(path, &draft.into_bytes())
    }

    fn may_fail_reads(&self) -> bool {
        false
    }

    fn failures(&self) -> u64 {
        self.failures
    }
}

/// Puts bytes in the file at a path.
fn write(
    alloc: Global,
    files: &mut BTreeMap<String, Bytes>,
    path: &str,
    bytes: &[u8],
) -> Result<(), NoMemory>
    ensures put { OnOk result (Puts (files_of files.old) (files_of files.new) path.now bytes.now) }
    ensures refused { OnErr result (files.new.entries ≡ files.old.entries) }
{
    let path = String::from_str(alloc, path)?;
    let bytes = Bytes::copy_from_slice(alloc, bytes)?;
    files.insert(path, bytes)?;
    Ok(())
}

/// Puts bytes in the file at a path. A crash may leave anything there: the first half of the bytes
/// is written down for it.
fn write_unsettled(
    alloc: Global,
    torn: &mut BTreeMap<String, Bytes>,
    files: &mut BTreeMap<String, Bytes>,
    path: &str,
    bytes: &[u8],
) -> Result<(), NoMemory>
    ensures put { OnOk result (Puts (files_of files.old) (files_of files.new) path.now bytes.now) }
    ensures refused { OnErr result (files.new.entries ≡ files.old.entries) }
    ensures other { (q : List ℕ) → bytes_eq path.now q ≡ false
        → files_of torn.new q ≡ files_of torn.old q }
{
    write(alloc, torn, path, &bytes[..bytes.len() / 2])?;
    write(alloc, files, path, bytes)
}

/// Makes the file at a path the same in other files.
fn copy_file(
    alloc: Global,
    files: &BTreeMap<String, Bytes>,
    others: &mut BTreeMap<String, Bytes>,
    path: &str,
) -> Result<(), NoMemory>
    ensures same { OnOk result (files_of others.new path.now ≡ files_of files.now path.now) }
    ensures other { (q : List ℕ) → bytes_eq path.now q ≡ false
        → files_of others.new q ≡ files_of others.old q }
    ensures refused { OnErr result (others.new.entries ≡ others.old.entries) }
{
    match files.get(path) {
        Some(bytes) => write(alloc, others, path, bytes),
        None => {
            others.remove(path);
            Ok(())
        }
    }
}

impl PrunableDir for MemDir {
    fn list(&self, folder: &str) -> Result<Vec<(String, u64)>, DirFault> {
        let files = files_in(self.alloc, &self.files, folder)?;
        Ok(files)
    }

    fn leftovers(&self) -> Result<Vec<(String, u64)>, DirFault> {
        let drafts = lengths_of(self.alloc, &self.drafts)?;
        Ok(drafts)
    }

    /// There are no links.
    fn linked(&self) -> Result<Option<&'static str>, DirFault> {
        Ok(None)
    }

    /// Removes a file. A fuse does not stop it.
    fn remove(&mut self, path: &str) -> Result<bool, DirFault>
        ensures removal { IsRemoval (device_of self.old) (device_of self.new) path.now result }
        ensures fuse { self.new.fuse ≡ self.old.fuse }
        ensures never { OnErr result ⊥ }
    {
        let removed = self.files.remove(path);
        Ok(removed.is_some())
    }

    /// Removes a draft. A fuse does not stop it.
    fn remove_draft(&mut self, path: &str) -> Result<bool, DirFault>
        ensures removal { IsDraftRemoval (device_of self.old) (device_of self.new) path.now result }
        ensures fuse { self.new.fuse ≡ self.old.fuse }
        ensures never { OnErr result ⊥ }
    {
        let removed = self.drafts.remove(path);
        Ok(removed.is_some())
    }
}

/// Returns the paths of these files, each with its length.
fn lengths_of(
    alloc: Global,
    files: &BTreeMap<String, Bytes>,
) -> Result<Vec<(String, u64)>, NoMemory>
    ensures { IfOk result (λ found. ListsFiles (files_of files.now) (by_name found.items)) }
{
    let mut found = Vec::new(alloc);
    for (path, bytes) in files.iter() {
        found.push((String::from_str(alloc, path.as_str())?, bytes.len() as u64))?;
    }
    Ok(found)
}

/// Returns the names of the files directly in a folder, each with its length.
fn files_in(
    alloc: Global,
    files: &BTreeMap<String, Bytes>,
    folder: &str,
) -> Result<Vec<(String, u64)>, NoMemory>
    ensures { IfOk result (λ found. ListsFolder (files_of files.now) folder.now
        (by_name found.items)) }
{
    let mut found = Vec::new(alloc);
    for (path, bytes) in files.iter() {
        note_file(alloc, folder, path.as_str(), bytes.len() as u64, &mut found)?;
    }
    Ok(found)
}

/// Adds the name and the length of a file to these if it is directly in a folder.
fn note_file(
    alloc: Global,
    folder: &str,
    path: &str,
    length: u64,
    found: &mut Vec<(String, u64)>,
) -> Result<(), NoMemory>
    ensures { OnOk result ((name : List ℕ) (size : ℕ)
        → Contains (by_name found.new.items) (name, size)
        ↔ (Contains (by_name found.old.items) (name, size)
        ⊎ (IsName name × (path.now ≡ path_in folder.now name) × (size ≡ length)))) }
{
    let Some(name) = name_in(folder, path) else {
        return Ok(());
    };
    found.push((String::from_str(alloc, name)?, length))?;
    Ok(())
}

/// Returns the name of a file that is directly in a folder.
fn name_in<'p>(folder: &str, path: &'p str) -> Option<&'p str>
    ensures { MatchOption result
        ((name : List ℕ) → IsName name → path.now ≡ path_in folder.now name → ⊥)
        (λ name. IsName name.now × (path.now ≡ path_in folder.now name.now)) }
{
    let Some(rest) = path.strip_prefix(folder) else {
        return None;
    };
    let Some(name) = rest.strip_prefix("/") else {
        return None;
    };
    if is_name(name) { Some(name) } else { None }
}

/// Returns whether a text is a name: it is not empty, and has no slash.
fn is_name(text: &str) -> bool
    ensures { result ≡ true ↔ IsName text.now }
{
    !text.is_empty() && !text.as_bytes().contains(&b'/')
}
