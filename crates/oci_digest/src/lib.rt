//! Content digests of the OCI Image Specification 1.1 (descriptor.md, "Digests").
//!
//! A digest is a text `algorithm:encoded`. This crate knows the algorithms `sha256` and `sha512`.
//! The encoded part is the hash of the content by that algorithm (FIPS 180-4), in 64 or 128
//! lower-case hexadecimal digits:
//!
//! ```text
//! sha256:ba7816bf8f01cfea414140de5dae2223b00361a396177a9cb410ff61f20015ad
//! ```
//!
//! | Call | What it does |
//! |---|---|
//! | [`Digest::of`] | computes the SHA-256 digest of some bytes |
//! | [`Digest::of_sha512`] | computes the SHA-512 digest of some bytes |
//! | [`Digest::parse`] | reads the text of a digest, or returns a [`DigestFault`] |
//! | [`Digest::matches`] | verifies bytes against a digest (descriptor.md, "Verification") |
//! | [`Digest::text`], `Display` | return or print the text of a digest |
//! | [`Hasher`] | verifies content that arrives in parts |
//!
//! Contracts see a digest as its text, a list of bytes. Two digests are equal if their texts are
//! equal, and they are ordered by their texts, byte by byte. A `Digest` is `Copy`. Only
//! [`Digest::text`] and [`Digest::encoded`] allocate. Their only error is [`NoMemory`], which the
//! crates above also use.
//!
//! ```rust
//! let digest = Digest::parse(text)?;
//! if !digest.matches(content) {
//!     return Err(Corrupt);
//! }
//! ```
//!
//! [`tests_decide_definitions`] does nothing at run time. Its contract states that the Boolean
//! tests of digests, which contracts above use, agree with the definitions.
#![tactic(auto)]

mod digest;
mod fault;
mod hash;
mod hasher;
mod parse;

pub use digest::{Digest, tests_decide_definitions};
pub use fault::{DigestFault, NoMemory};
pub use hasher::Hasher;
