ghost use Rattle.std.specs.Prelude.{◌≡◌, ◌⊎◌, true, [], List, Some, IfOk, IfErr, IsTrue, MatchResult};
ghost use Rattle.oci_manifest.specs.Descriptor.{Descriptor};
ghost use Rattle.oci_store.specs.Content.{IsChecked};
ghost use Rattle.oci_store.specs.Keyed.{value_at, has_key};
ghost use Rattle.oci_store.specs.Parts.{IsLeaf};
ghost use Rattle.oci_copy.specs.Brought.{IsDrafted, MayBeRefused};
ghost use Rattle.oci_copy.specs.Cause.{IsContentCause};
ghost use Rattle.oci_copy.specs.Fault.{of_fetch, of_push};
ghost use Rattle.oci_copy.specs.Planned.{CanBeRead};

use crate::fault::CopyFault;
use oci_manifest::{Key, Kind};
use oci_store::{CheckedContent, Drafting, FetchFault, PartWatcher, PushFault, Source, fetch_into};

/// Fetches and reads the content of a planned key. The fetch checked its bytes, so they are not
/// hashed again.
pub(crate) fn fetch_planned<A: Source>(source: &A, key: &Key) -> Result<CheckedContent, CopyFault>
    requires there { has_key (A.state source.now).entries key.now ≡ true }
    requires reads { (A.state source.now).is_honest
        → CanBeRead (A.state source.now).entries key.now }
    ensures key { IfOk result (λ content. content.0 ≡ key.now) }
    ensures own { IfOk result (λ content. (A.state source.now).is_honest
        → value_at (A.state source.now).entries key.now ≡ Some content.1) }
    ensures checked { IfOk result (λ content. (listed : List Descriptor)
        × IsChecked key.now content.1 listed) }
    ensures cause { IfErr result (IsContentCause (A.state source.now) key.now) }
{
    let bytes = match source.fetch(key) {
        Ok(bytes) => bytes,
        Err(fault) => return Err(fetch_fault(key, fault)),
    };
    match CheckedContent::of_matching(key, bytes) {
        Ok(content) => Ok(content),
        Err(fault) => Err(push_fault(key, fault)),
    }
}

/// Returns whether a key's content is read part by part: if the key lists nothing, and the source
/// may refuse a key that it holds.
pub(crate) fn goes_by_parts<A: Source>(source: &A, key: &Key) -> bool
    ensures leaf { IsTrue result → IsLeaf key.now }
    ensures fails { IsTrue result → (A.state source.now).fails_at key.now ≡ true }
{
    Kind::of(key.media_type()) == Kind::Leaf && source.may_fail(key)
}

/// Reads the content of a planned key into a draft, up to the first write that fails. The watcher
/// is told of each part.
///
/// The draft is also put onto the disk here, so that a worker does not wait for the disk while it
/// holds the lock.
pub(crate) fn draft_planned<A: Source, W: Drafting, P: PartWatcher>(
    source: &A,
    key: &Key,
    draft: &mut W,
    watcher: &P,
) -> Result<(), CopyFault>
    requires empty { W.drafted draft.old [] }
    requires refused { MayBeRefused (A.state source.now) key.now }
    ensures { MatchResult result (λ _. IsDrafted (W.is_lost draft.new) (W.drafted draft.new)
        (A.state source.now) key.now) (IsContentCause (A.state source.now) key.now) }
{
    match fetch_into(source, key, draft, watcher) {
        Ok(()) => {
            draft.settle();
            Ok(())
        }
        Err(fault) => Err(fetch_fault(key, fault)),
    }
}

/// Returns the fault of a copy whose source refused the key.
fn fetch_fault(key: &Key, fault: FetchFault) -> CopyFault
    ensures { (result ≡ CopyFault.Memory) ⊎ (result ≡ of_fetch key.now fault) }
{
    match fault {
        FetchFault::Memory => CopyFault::Memory,
        _ => match key.try_clone() {
            Ok(key) => CopyFault::Fetch(key, fault),
            Err(_) => CopyFault::Memory,
        },
    }
}

/// Returns the fault of a copy whose push of the key was refused.
pub(crate) fn push_fault(key: &Key, fault: PushFault) -> CopyFault
    ensures { (result ≡ CopyFault.Memory) ⊎ (result ≡ of_push key.now fault) }
{
    let Ok(key) = key.try_clone() else {
        return CopyFault::Memory;
    };
    match fault {
        PushFault::Memory => CopyFault::Memory,
        PushFault::AlreadyExists => CopyFault::Stuck(key),
        PushFault::MissingSuccessor(_) => CopyFault::Stuck(key),
        _ => CopyFault::Push(key, fault),
    }
}
