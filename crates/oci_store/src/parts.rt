ghost use Rattle.std.specs.Prelude.{◌≡◌, ◌↔◌, ◌≤◌, ◌⊎◌, [], List, ℕ, true, false, OnOk, IsErrOf};
ghost use Rattle.oci_store.specs.Keyed.{value_at, has_key};
ghost use Rattle.oci_store.specs.Parts.{IsDraftOf};

use crate::draft::Drafting;
use crate::fault::FetchFault;
use crate::source::Source;
use oci_digest::Hasher;
use oci_manifest::Key;

/// The largest number of bytes that one read requests.
const PART: usize = 1_048_576;

/// Is told of each part of a content that is read part by part.
///
/// `()` ignores the parts.
pub trait PartWatcher {
    /// Called after a part with this number of bytes was read and drafted. Does nothing by default.
    /// It has no result and does not change what is read, and it is assumed to terminate.
    fn part_arrived(&self, _length: usize) {}
}

impl PartWatcher for () {}

/// Returns the size of the next read: a full part, or the remainder plus one byte, so that a short
/// read marks the end and an over-long blob is noticed.
fn part_size(left: u64) -> usize
    ensures some { 1 ≤ result }
    ensures most { result ≤ 1048576 }
{
    if left < PART as u64 {
        left as usize + 1
    } else {
        PART
    }
}

/// Reads the content of a key part by part into a draft, and verifies it. The watcher is told of
/// each part. It requests at most one byte more than the key's size. The contract does not state
/// this bound, nor the calls of the watcher.
///
/// If a write of the draft fails, the rest is not read, nothing is verified, and the result is
/// `Ok`. The push of the draft reports the failure.
///
/// # Errors
///
/// - 20 `NotFound`: the key is not held.
/// - 21 `Corrupt`: the content is shorter or longer than the key's size or has another digest, or
///   the source reported this error. A sound source never causes it.
/// - 22 `Device`: the device could not be read.
/// - 23 `Memory`: an allocation failed.
///
/// After an error the bytes of the draft are unspecified: drop it.
pub fn fetch_into<A: Source, W: Drafting, P: PartWatcher>(
    source: &A,
    key: &Key,
    draft: &mut W,
    watcher: &P,
) -> Result<(), FetchFault>
    requires empty { W.drafted draft.old [] }
    requires fails { (A.state source.now).fails_at key.now ≡ true }
    ensures held { OnOk result (has_key (A.state source.now).entries key.now ≡ true) }
    ensures drafted { OnOk result (W.is_lost draft.new ⊎ ((bytes : List ℕ)
        × IsDraftOf (W.drafted draft.new) key.now (A.state source.now).is_honest
        (value_at (A.state source.now).entries key.now) bytes)) }
    ensures not_found { IsErrOf result FetchFault.NotFound
        ↔ (has_key (A.state source.now).entries key.now ≡ false) }
    ensures good { IsErrOf result FetchFault.Corrupt → (A.state source.now).is_sound → ⊥ }
{
    let mut hasher = Hasher::new(key.digest());
    let mut left = key.size();
    loop {
        let most = part_size(left);
        let part = source.fetch_part(key, key.size() - left, most)?;
        let length = part.len();
        if length as u64 > left {
            return Err(FetchFault::Corrupt);
        }
        hasher.update(part.as_slice());
        let Ok(()) = draft.append(part.as_slice()) else {
            return Err(FetchFault::Memory);
        };
        if draft.is_broken() {
            return Ok(());
        }
        watcher.part_arrived(length);
        left -= length as u64;
        if length < most {
            break;
        }
    }
    if left > 0 || !hasher.matches() {
        return Err(FetchFault::Corrupt);
    }
    Ok(())
}
