//! Keys of contents, kinds of manifests, and the successors that a manifest lists.
//!
//! A [`Key`] identifies a content of the OCI Image Specification 1.1 by its media type, digest and
//! size. The media type decides the [`Kind`] of the content. [`successors`] reads the bytes of a
//! manifest as that kind and returns the keys that it lists. These keys are the edges of the graphs
//! that are copied.
//!
//! | Kind | Members with successors, in order | Source |
//! |---|---|---|
//! | Image | `subject`, `config`, `layers` | manifest.md |
//! | Index | `subject`, `manifests` | image-index.md |
//! | DockerImage | `config`, `layers` | Docker Image Manifest V2, Schema 2 |
//! | DockerList | `manifests` | Docker Image Manifest V2, Schema 2 |
//! | Artifact | `subject`, `blobs` | artifact.md of OCI image-spec 1.1.0-rc2 |
//! | Leaf | none: the bytes are not read | |
//!
//! Only the members in this table are read. `schemaVersion`, the manifest's own `mediaType`,
//! `data`, `urls`, `platform`, `annotations` and unknown members are ignored. Member names are
//! matched exactly. If a member is repeated, `serde_json` decides which value counts. Layers of the
//! four types that are not distributed are not successors; [`undistributed`] returns them.
//!
//! [`artifact_type`] returns the type that a manifest declares, and [`subject`] the key of the
//! manifest that it refers to. [`read_links`] returns the successors, the subject and the keys that are
//! not distributed at once. [`key_of`] reads a single descriptor.
//!
//! Manifests come from untrusted sources, so every input has a defined result: the keys, or a
//! [`ManifestFault`] that names the first broken rule. The time is linear in the length of the
//! bytes, plus O(n log n) for n descriptors. Recursion is no deeper than the nesting of the JSON
//! text, which is at most 127.
//!
//! The contract of [`successors`] fixes the keys and the error, and says that no key is returned
//! twice and that a leaf never fails. It does not cover time and depth. Keys and errors are defined
//! twice: by readable relations (`specs/Manifest.antt`), and by a function that the crates above
//! compute with (`specs/Reading.antt`). The contract of [`successors_are_what_is_listed`] states
//! that both agree; the function does nothing at run time.
#![tactic(auto)]

mod fault;
mod key;
mod kind;
mod manifest;
mod media_type;

pub use fault::{KeyFault, ManifestFault};
pub use key::{Key, MAX_SIZE};
pub use kind::Kind;
pub use manifest::{
    Links, artifact_type, artifact_type_is_what_is_declared, index_keys, key_of, read_json,
    read_links, subject, subject_is_what_is_stated, successors, successors_are_what_is_listed,
    undistributed, undistributed_are_what_is_listed,
};
