ghost use Rattle.std.specs.Prelude.{◌≡◌, ◌≤◌, length, true, Some, None, IfOk, IsErrOf, string_bytes};
ghost use Rattle.oci_layout_store.specs.Blobs.{blob_path, IsBlobRead, IsNotOf};
ghost use Rattle.oci_dir.specs.Crash.{LeavesPut};
ghost use Rattle.oci_dir.specs.Device.{IsPut, IsSizedRead, Only};
ghost use Rattle.oci_store.specs.Content.{Matches};
ghost use Rattle.oci_store.specs.Parts.{IsPart};

use bytes::Bytes;
use oci_digest::{Digest, NoMemory};
use oci_dir::{Dir, DirFault};
use oci_manifest::Key;
use oci_store::FetchFault;
use std::alloc::Global;

/// Returns the path of the blob of a digest: `blobs`, its algorithm and its encoded part
/// (image-layout.md, "Blobs").
///
/// # Errors
///
/// `NoMemory` if memory runs out.
#[tactic(auto, unfolding(crate::specs::Blobs::blob_path))]
pub fn blob_path(alloc: Global, digest: &Digest) -> Result<String, NoMemory>
    ensures { IfOk result (λ path. string_bytes path ≡ blob_path digest.now) }
{
    let encoded = digest.encoded(alloc)?;
    let algorithm = digest.algorithm();
    Ok(format!(in alloc; "blobs/{algorithm}/{encoded}")?)
}

/// Reads the blob of a key, which must match the key. Fails with `Corrupt` if the file is missing
/// or has other bytes, and with `Device` if a read failed.
pub(crate) fn read_blob<D: Dir>(alloc: Global, dir: &D, key: &Key) -> Result<Bytes, FetchFault>
    ensures matching { IfOk result (λ bytes. Matches key.now bytes) }
    ensures read { IfOk result (λ bytes. (D.device dir.now).is_honest
        → (D.device dir.now).file (blob_path key.now.digest) ≡ Some bytes) }
    ensures cause { IsBlobRead (D.device dir.now) (IsNotOf key.now
        ((D.device dir.now).file (blob_path key.now.digest))) result }
{
    let Ok(path) = blob_path(alloc, key.digest()) else {
        return Err(FetchFault::Memory);
    };
    let bytes = match read_sized(dir, &path, key.size()) {
        Ok(Some(bytes)) => bytes,
        Ok(None) => return Err(FetchFault::Corrupt),
        Err(DirFault::Failed) => return Err(FetchFault::Device),
        Err(DirFault::Memory) => return Err(FetchFault::Memory),
    };
    if !key.matches(bytes.as_slice()) {
        return Err(FetchFault::Corrupt);
    }
    Ok(bytes)
}

/// Reads a file whose expected size is `size`. Returns `size + 1` bytes of a longer file.
pub(crate) fn read_sized<D: Dir>(dir: &D, path: &str, size: u64) -> Result<Option<Bytes>, DirFault>
    ensures read { IfOk result (λ found. (D.device dir.now).is_honest
        → IsSizedRead ((D.device dir.now).file path.now) size found) }
    ensures failed { IsErrOf result DirFault.Failed → (D.device dir.now).fails_reads ≡ true }
{
    match usize::try_from(size) {
        Ok(size) if size < usize::MAX => dir.read_part(path, 0, size + 1),
        _ => Err(DirFault::Memory),
    }
}

/// Reads at most `most` bytes of a key's blob, from position `from` on. Fails with `Corrupt` if the
/// file is missing, and with `Device` if a read failed.
#[tactic(auto, using(crate::proofs::Drafted::no_part))]
pub(crate) fn read_blob_part<D: Dir>(
    alloc: Global,
    dir: &D,
    key: &Key,
    from: u64,
    most: usize,
) -> Result<Bytes, FetchFault>
    ensures short { IfOk result (λ part. length part ≤ most) }
    ensures part { IfOk result (λ part. (D.device dir.now).is_honest
        → IsPart ((D.device dir.now).file (blob_path key.now.digest)) from most part) }
    ensures cause { IsBlobRead (D.device dir.now)
        ((D.device dir.now).file (blob_path key.now.digest) ≡ None) result }
{
    let Ok(path) = blob_path(alloc, key.digest()) else {
        return Err(FetchFault::Memory);
    };
    match dir.read_part(&path, from, most) {
        Ok(Some(part)) => Ok(part),
        Ok(None) => Err(FetchFault::Corrupt),
        Err(DirFault::Failed) => Err(FetchFault::Device),
        Err(DirFault::Memory) => Err(FetchFault::Memory),
    }
}

/// Puts the bytes of a blob in the file at its path, unless a read returns the same bytes. Replaces
/// another file as a whole, since it may be of another key with the digest.
pub(crate) fn put_blob<D: Dir>(dir: &mut D, path: &str, content: &Bytes) -> Result<(), DirFault>
    ensures put { IsPut (D.device dir.old) (D.device dir.new) path.now (Only content.now) result }
    ensures left { (D.device dir.old).is_honest → LeavesPut (D.device dir.old) (D.device dir.new)
        path.now (Only content.now) }
{
    match look_at(dir, path, content)? {
        Found::Same => Ok(()),
        Found::Nothing => dir.put(path, content.as_slice()),
        Found::Other => dir.replace(path, content.as_slice()),
    }
}

/// What a read returns in the place of a blob.
enum Found {
    /// The bytes of the blob.
    Same,
    /// There is no file.
    Nothing,
    /// Other bytes, or a fault.
    Other,
}

/// Returns what a read of a file returns in the place of these bytes.
fn look_at<D: Dir>(dir: &D, path: &str, bytes: &Bytes) -> Result<Found, NoMemory>
    ensures same { IfOk result (λ found. found ≡ Found.Same → (D.device dir.now).is_honest
        → (D.device dir.now).file path.now ≡ Some bytes.now) }
    ensures nothing { IfOk result (λ found. found ≡ Found.Nothing → (D.device dir.now).is_honest
        → (D.device dir.now).file path.now ≡ None) }
{
    match read_sized(dir, path, bytes.len() as u64) {
        Ok(Some(found)) if found.as_slice() == bytes.as_slice() => Ok(Found::Same),
        Ok(Some(_)) => Ok(Found::Other),
        Ok(None) => Ok(Found::Nothing),
        Err(DirFault::Failed) => Ok(Found::Other),
        Err(DirFault::Memory) => Err(NoMemory),
    }
}
