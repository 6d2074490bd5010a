ghost use Rattle.std.specs.Prelude.{◌≡◌, ◌++◌, ◌∷◌, [], filter, option_copied, IfOk, OnOk};
ghost use Rattle.oci_verify.specs.Corrupt.{is_asked};
ghost use Rattle.oci_query_commands.specs.Foreign.{has_wrong_file, is_wrong, AreCorruptForeign};

use crate::cat::{is_whole, part_size};
use oci_digest::Hasher;
use oci_dir::{Dir, DirFault};
use oci_layout_store::{Layout, blob_path};
use oci_manifest::Key;
use oci_program::ProgramFault;
use oci_prune::undistributed_layers;
use oci_store::FetchFault;
use std::alloc::Global;
use std::collections::BTreeSet;

/// Returns the keys that held manifests list as not to be distributed, and whose files are there and
/// do not match them, in key order. Looks only at manifests that are asked for, all or those of a set.
/// A layer is read in parts of at most 1 MiB, which are not kept.
pub(crate) fn corrupt_foreign<D: Dir>(
    alloc: Global,
    layout: &Layout<D>,
    asked: Option<&BTreeSet<Key>>,
) -> Result<Vec<Key>, ProgramFault>
    ensures { IfOk result (λ keys. (D.device layout.now.dir).is_honest
        → AreCorruptForeign (is_asked (option_copied asked.entry)) (D.device layout.now.dir).file
        layout.now.graph keys.items) }
{
    match undistributed_layers(alloc, layout, asked) {
        Ok(layers) => wrong_among(alloc, layout, layers),
        Err(fault) => Err(ProgramFault::Source(fault)),
    }
}

/// Returns those of these keys whose files are there and do not match them, in their order.
fn wrong_among<D: Dir>(
    alloc: Global,
    layout: &Layout<D>,
    keys: Vec<Key>,
) -> Result<Vec<Key>, ProgramFault>
    ensures { IfOk result (λ wrong. (D.device layout.now.dir).is_honest
        → wrong.items ≡ filter (has_wrong_file (D.device layout.now.dir).file) keys.items) }
{
    let mut wrong = Vec::new(alloc);
    for key in keys {
        add_if_wrong(alloc, layout, key, &mut wrong)?;
    }
    Ok(wrong)
}

/// Adds a key to these if its file is there and does not match it.
fn add_if_wrong<D: Dir>(
    alloc: Global,
    layout: &Layout<D>,
    key: Key,
    wrong: &mut Vec<Key>,
) -> Result<(), ProgramFault>
    ensures { OnOk result ((D.device layout.now.dir).is_honest → wrong.new.items
        ≡ wrong.old.items ++ filter (has_wrong_file (D.device layout.now.dir).file) (key ∷ [])) }
{
    if has_wrong_file(alloc, layout, &key)? {
        wrong.push(key)?;
    }
    Ok(())
}

/// Returns whether there is a file of a key, and it does not match the key.
fn has_wrong_file<D: Dir>(
    alloc: Global,
    layout: &Layout<D>,
    key: &Key,
) -> Result<bool, ProgramFault>
    ensures { IfOk result (λ wrong. (D.device layout.now.dir).is_honest
        → wrong ≡ has_wrong_file (D.device layout.now.dir).file key.now) }
{
    let path = blob_path(alloc, key.digest())?;
    match is_wrong(layout.dir(), &path, key) {
        Ok(wrong) => Ok(wrong),
        Err(DirFault::Failed) => Err(ProgramFault::Fetch(FetchFault::Device)),
        Err(DirFault::Memory) => Err(ProgramFault::Memory),
    }
}

/// Returns whether there is a file, and it does not match a key. One of another size is not read.
fn is_wrong<D: Dir>(dir: &D, path: &str, key: &Key) -> Result<bool, DirFault>
    ensures { IfOk result (λ wrong. (D.device dir.now).is_honest
        → wrong ≡ is_wrong key.now ((D.device dir.now).file path.now)) }
{
    let Some(size) = dir.size(path)? else {
        return Ok(false);
    };
    if size != key.size() {
        return Ok(true);
    }
    is_wrong_in_parts(dir, path, key)
}

/// Reads a file part by part, and returns whether there is one, and it does not match a key.
fn is_wrong_in_parts<D: Dir>(dir: &D, path: &str, key: &Key) -> Result<bool, DirFault>
    ensures { IfOk result (λ wrong. (D.device dir.now).is_honest
        → wrong ≡ is_wrong key.now ((D.device dir.now).file path.now)) }
{
    let mut hasher = Hasher::new(key.digest());
    let mut left = key.size();
    loop {
        let most = part_size(left);
        let Some(part) = dir.read_part(path, key.size() - left, most)? else {
            return Ok(false);
        };
        let length = part.len();
        if length as u64 > left {
            return Ok(true);
        }
        hasher.update(part.as_slice());
        left -= length as u64;
        if length < most {
            break;
        }
    }
    Ok(!is_whole(left, hasher))
}
