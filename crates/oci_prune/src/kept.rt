ghost use Rattle.std.specs.Prelude.{◌≡◌, IfOk, IfErr, OnOk, ◌↔◌, true};
ghost use Rattle.oci_manifest.specs.Descriptor.{Descriptor};
ghost use Rattle.oci_store.specs.Keyed.{has_key};
ghost use Rattle.oci_prune.specs.Attached.{AttachedIn};
ghost use Rattle.oci_prune.specs.Belongs.{AllKnown};
ghost use Rattle.oci_prune.specs.Plan.{AreHeld, AreKept, IsSafe, RefersIf};
ghost use Rattle.oci_prune.specs.Refusal.{IsKeyFault};
ghost use Rattle.oci_prune.specs.Subjects.{IsSubjectFault};

use crate::attachments::Attachments;
use crate::members::members_of;
use crate::type_filter::TypeFilter;
use oci_manifest::Key;
use oci_prune_fault::PruneFault;
use oci_store::{GraphSource, Source};
use std::alloc::Global;
use std::collections::BTreeSet;

/// Returns the keys that a prune keeps: the roots that are held, with each kept key the held keys
/// that it lists, and, if `keeps_referrers`, the held keys that refer to it. `held` has the held
/// keys.
///
/// # Errors
///
/// - 77 `BadManifest` if a held manifest cannot be read, and 88 `Fetch` if its bytes cannot be
///   fetched; only if `keeps_referrers`.
/// - 96 `Unknown` if a root, or a key that a kept key needs, is of a manifest kind and not held.
/// - 89 `Memory` if memory runs out.
pub(crate) fn plan_keys<S: GraphSource>(
    alloc: Global,
    source: &S,
    roots: &[Key],
    held: &[Key],
    keeps_referrers: bool,
) -> Result<BTreeSet<Key>, PruneFault>
    requires { AreHeld (S.state source.now).nodes held.now }
    ensures kept { IfOk result (λ kept. (keeps_referrers ≡ true → (S.state source.now).is_honest)
        → AreKept (S.state source.now).nodes roots.now
        (RefersIf keeps_referrers (S.state source.now)) kept) }
    ensures safe { IfOk result (IsSafe (S.state source.now).nodes roots.now) }
    ensures known { OnOk result ((keeps_referrers ≡ true → (S.state source.now).is_honest)
        → AllKnown (S.state source.now).nodes roots.now
        (RefersIf keeps_referrers (S.state source.now))) }
    ensures cause { IfErr result (IsKeyFault (S.state source.now) roots.now keeps_referrers) }
{
    let attachments = attachments_if(alloc, source, held, keeps_referrers)?;
    members_of(alloc, source, roots, &attachments, true)
}

/// Returns what is attached to keys by subjects; nothing, if referrers are left out. Tags are left
/// out: the keys of all of them are roots of a prune.
fn attachments_if<S: Source>(
    alloc: Global,
    source: &S,
    held: &[Key],
    keeps_referrers: bool,
) -> Result<Attachments, PruneFault>
    requires { AreHeld (S.state source.now).nodes held.now }
    ensures exact { IfOk result (λ attachments.
        (keeps_referrers ≡ true → (S.state source.now).is_honest)
        → (referrer subject : Descriptor) → AttachedIn attachments referrer subject
        ↔ RefersIf keeps_referrers (S.state source.now) referrer subject) }
    ensures cause { IfErr result (IsSubjectFault (S.state source.now)
        (λ k. (keeps_referrers ≡ true) × (has_key (S.state source.now).nodes k ≡ true))) }
{
    if keeps_referrers {
        Attachments::of(alloc, source, held, &[], &TypeFilter::AnyType)
    } else {
        Ok(Attachments::none(alloc))
    }
}
