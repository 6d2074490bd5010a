ghost use Rattle.std.specs.Prelude.{◌≡◌, IfOk};
ghost use Rattle.oci_digest.specs.Digest.{digest_by, Verifies};
ghost use Rattle.oci_store.specs.Content.{Matches};
ghost use Rattle.oci_tag_commands.specs.Mem.{algorithm_of, type_of, IsDigestedBy};

use bytes::Bytes;
use oci_command_line::Algorithm;
use oci_digest::Digest;
use oci_dir::FirstFailure;
use oci_manifest::Key;
use oci_program::ProgramFault;
use oci_store::CheckedContent;
use std::alloc::Global;
use std::rt::Files;
use std::{fs, io};

/// The digest of some bytes by an algorithm.
fn digest_of(algorithm: Algorithm, bytes: &[u8]) -> Digest
    ensures verifies { Verifies result bytes.now }
    ensures by { result ≡ digest_by (algorithm_of algorithm) bytes.now }
{
    match algorithm {
        Algorithm::Sha256 => Digest::of(bytes),
        Algorithm::Sha512 => Digest::of_sha512(bytes),
    }
}

/// The content of an item `TYPE=PATH`, and its key: the bytes of the file under their digest.
pub(crate) struct Item {
    pub(crate) key: Key,
    pub(crate) content: CheckedContent,
}

impl Item {
    /// Splits an item at its first `=`, and reads its file. If that fails, it is noted in `first`.
    ///
    /// # Errors
    ///
    /// - 92 `BadItem` if the item has no `=`.
    /// - 93 `File` if its file cannot be read, and 4 `BadSize` if it is too long for a key.
    /// - Out of memory, at any point.
    pub(crate) fn read<R: Files + AllocGlobal>(
        rt: &R,
        item: &str,
        algorithm: Algorithm,
        first: &FirstFailure,
    ) -> Result<Item, ProgramFault>
        ensures same { IfOk result (λ it. it.content.0 ≡ it.key) }
        ensures entry_type { IfOk result (λ it. it.key.media_type ≡ type_of item.now) }
        ensures digest { IfOk result (λ it. IsDigestedBy (algorithm_of algorithm) it.content) }
    {
        match item.split_once('=') {
            Some((media_type, path)) => {
                let bytes = read_file(rt, path, first)?;
                Item::of(rt.alloc(), media_type, bytes, algorithm)
            }
            None => Err(ProgramFault::BadItem(String::from_str(rt.alloc(), item)?)),
        }
    }

    /// Makes a content of bytes. They are hashed once, for the key.
    fn of(
        alloc: Global,
        media_type: &str,
        bytes: Vec<u8>,
        algorithm: Algorithm,
    ) -> Result<Item, ProgramFault>
        ensures same { IfOk result (λ it. it.content.0 ≡ it.key) }
        ensures entry_type { IfOk result (λ it. it.key.media_type ≡ media_type.now) }
        ensures digest { IfOk result (λ it. IsDigestedBy (algorithm_of algorithm) it.content) }
    {
        let key = key_of(alloc, media_type, &bytes, algorithm)?;
        let content = Bytes::from_vec(bytes)?;
        let content = CheckedContent::of_matching(&key, content)?;
        Ok(Item { key, content })
    }
}

/// The key of some bytes.
fn key_of(
    alloc: Global,
    media_type: &str,
    bytes: &[u8],
    algorithm: Algorithm,
) -> Result<Key, ProgramFault>
    ensures matches { IfOk result (λ key. Matches key bytes.now) }
    ensures entry_type { IfOk result (λ key. key.media_type ≡ media_type.now) }
    ensures digest { IfOk result (λ key. key.digest
        ≡ digest_by (algorithm_of algorithm) bytes.now) }
{
    let media_type = String::from_str(alloc, media_type)?;
    let digest = digest_of(algorithm, bytes);
    Ok(Key::new(media_type, digest, bytes.len() as u64)?)
}

/// Reads a file.
fn read_file<R: Files + AllocGlobal>(
    rt: &R,
    path: &str,
    first: &FirstFailure,
) -> Result<Vec<u8>, ProgramFault> {
    match fs::read(rt, path) {
        Ok(bytes) => Ok(bytes),
        Err(error) if error.kind() == io::ErrorKind::OutOfMemory => Err(ProgramFault::Memory),
        Err(error) => {
            first.note(path, error);
            Err(ProgramFault::File(String::from_str(rt.alloc(), path)?))
        }
    }
}
