//! Says what belongs to keys of an image layout, and removes what its index, or its tags, do not need.
//!
//! With a key *belong* the held keys that it lists, and the held keys that are *attached* to it, on
//! and on. The manifests whose `subject` has its digest are attached, such as signatures. For a copy,
//! so are the keys of the tags that name its digest, such as `sha256-DIGITS.sig`.
//!
//! [`belonging_of`] returns what belongs to keys: a copy of the keys brings it along.
//! [`belonging_of_types`] returns it if of what is attached to what the keys reach only referrers of
//! some types are wanted, and [`referrers_of_types`] such referrers of one key. [`independent_tags`]
//! returns the tags that are attached to no other key.
//!
//! [`free_keys`] returns the keys that no tag names, and that are wanted for themselves.
//! [`undistributed_layers`] returns the layers that held keys list and that are not distributed, and
//! [`keys_passed_over`] those of them that a copy of keys passes over.
//!
//! [`plan_prune`] plans a prune that keeps each held key, so all that an entry of the index reaches,
//! and changes nothing. Of the files under `blobs` that are named by a digest it removes those of
//! neither a held key nor one that a held key lists, be it a layer that is not distributed, and the
//! drafts that killed processes left. A
//! layout is refused in which an entry or a listed manifest is absent or any manifest is damaged,
//! since nobody knows what it lists, or in which an entry of the index is no descriptor, since nobody
//! knows what it needs.
//!
//! [`plan_prune_keeping`] plans a prune that keeps what belongs to the tagged keys, to those of the
//! entries that a tag hides, and to given keys. All other held keys are removed, with their files. A
//! layout without a tag is refused too. [`untag_orphans`] removes before, in memory, the tags that are
//! made of the digest of an image that does not stay. [`plan_prune_after`] plans the prune of what a
//! copy would leave, before there is one.
//!
//! [`prune`] does what is planned. It removes the files that no held key has, saves the index and
//! then removes the other files, so whenever it is stopped, every tag and all that it reaches is
//! there, and the next prune goes on. [`plan_leftovers`] and [`prune_leftovers`] remove the drafts
//! that killed processes left, and nothing else.
//!
//! What the tags reach is kept whatever the files of the layout have become. That exactly the kept
//! keys stay, each with its bytes, and that no blob is left that they do not need, assumes that the
//! directory returns what was written, and that no other program writes into it. So does that a copy
//! brings exactly what belongs to its keys.
//!
//! Each fault has a number: [`PruneFault`] 79, 89 and 96 to 98, 88 with a `FetchFault` inside, and
//! those of a layout, 73, 74 and 77. Each error leaves every tag and all that it reaches in place.
//!
//! [`kept_is_reached`] and [`belonging_is_reached`] do nothing when they run. Their contracts are
//! laws. Without referrers the kept keys are the held keys that the tags reach. What belongs to keys
//! is what is held and reached from them and from the attached keys that belong to them.
#![tactic(auto)]

mod after;
mod aside;
mod attachments;
mod belonging;
mod files;
mod followers;
mod free;
mod held;
mod kept;
mod laws;
mod leftovers;
mod members;
mod orphans;
mod passed;
mod plan;
mod referrers;
mod removal;
mod run;
mod save;
mod type_filter;
mod typed;
mod untagged;
mod whole;

pub use aside::undistributed_layers;
pub use attachments::Attachments;
pub use belonging::{Belonging, belonging_of};
pub use followers::independent_tags;
pub use free::free_keys;
pub use laws::{belonging_is_reached, kept_is_reached};
pub use leftovers::{plan_leftovers, prune_leftovers};
pub use oci_prune_fault::PruneFault;
pub use orphans::untag_orphans;
pub use passed::keys_passed_over;
pub use plan::{PrunePlan, PrunedFile, plan_prune, plan_prune_after, plan_prune_keeping};
pub use run::{Pruned, prune};
pub use save::save_only;
pub use typed::{belonging_of_types, referrers_of_types};
pub use untagged::{plan_untag, untag_others};
