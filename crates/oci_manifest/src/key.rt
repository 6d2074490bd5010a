ghost use Rattle.std.specs.Prelude.{◌≡◌, ◌<◌, ◌^◌, ◌↔◌, Some, IsTrue, IsOk, IfOk, IfErr, string_bytes};
ghost use Rattle.oci_manifest.specs.Descriptor.{IsKey, Matches};
ghost use Rattle.oci_manifest.specs.MediaTypes.{text_in};
ghost use Rattle.oci_manifest.specs.declared.fault.KeyFault.TheVariants.{BadSize};

use crate::fault::KeyFault;
use crate::media_type::MediaType;
use arrayvec::ArrayString;
use oci_digest::{Digest, NoMemory};
use serde::{Described, Serialize, Serializer};
use std::alloc::Global;
use std::cmp::Ordering;
use std::fmt::{self, Write};
use std::marker::Model;

/// The greatest size that a descriptor may state, 2^63 - 1. In the specification `size` is an int64
/// (OCI image-spec 1.1, descriptor.md).
pub const MAX_SIZE: u64 = 9_223_372_036_854_775_807;

/// The length of the longest text of a digest, which is one of SHA-512.
const LONGEST_DIGEST: usize = 135;

/// The identity of a content: its media type, its digest and its size in bytes.
///
/// These are the required properties of a descriptor (OCI image-spec 1.1, descriptor.md,
/// "Properties"). oras-go identifies the nodes of a graph by the same three. The same bytes under
/// two media types have two keys. Contracts see a key as a record of the media type's bytes, the
/// digest's text and the size.
#[derive(Drop)]
pub struct Key {
    alloc: Global,
    media_type: MediaType,
    digest: Digest,
    size: u64,
}

impl Model for Key {
    ghost use Rattle.std.specs.Prelude.{◌<◌, ◌^◌};
    ghost use Rattle.oci_manifest.specs.MediaTypes.{text_in};
    ghost use Rattle.oci_manifest.specs.Descriptor.{Descriptor};

    ghost Value = { Descriptor };

    ghost view = { λ k. record {
      media_type = text_in k.media_type;
      digest = k.digest;
      size = k.size;
    } };

    ghost invariant = { λ k. k.size < 2 ^ 63 };
}

impl Key {
    ghost use Rattle.oci_manifest.specs.Descriptor.{Descriptor};

    /// Creates a key from its parts. Any text is a valid media type, also the empty one. Does not
    /// allocate.
    ///
    /// # Errors
    ///
    /// - 4 `BadSize`: the size is over [`MAX_SIZE`].
    pub fn new(media_type: String, digest: Digest, size: u64) -> Result<Key, KeyFault>
        ensures parts { IfOk result
            (λ k. k ≡ record {
              media_type = string_bytes media_type;
              digest = digest;
              size = size;
            }) }
        ensures fits { IsOk result ↔ (size < 2 ^ 63) }
        ensures refused { IfErr result (λ e. e ≡ BadSize) }
    {
        let alloc = *media_type.allocator();
        Key::from_parts(alloc, MediaType::new(media_type), digest, size)
    }

    /// Creates a key from its parts.
    pub(crate) fn from_parts(
        alloc: Global,
        media_type: MediaType,
        digest: Digest,
        size: u64,
    ) -> Result<Key, KeyFault>
        ensures parts { IfOk result
            (λ k. k ≡ record { media_type = text_in media_type; digest = digest; size = size }) }
        ensures fits { IsOk result ↔ (size < 2 ^ 63) }
        ensures refused { IfErr result (λ e. e ≡ BadSize) }
    {
        if size > MAX_SIZE {
            return Err(KeyFault::BadSize);
        }
        Ok(Key {
            alloc,
            media_type,
            digest,
            size,
        })
    }

    /// Returns the media type, unchanged.
    pub fn media_type(&self) -> &str
        ensures { result.now ≡ self.now.media_type }
    {
        self.media_type.as_str()
    }

    /// Returns the digest of the content.
    pub fn digest(&self) -> &Digest
        ensures { result.now ≡ self.now.digest }
    {
        &self.digest
    }

    /// Returns the size of the content in bytes.
    pub fn size(&self) -> u64
        ensures size { result ≡ self.now.size }
        ensures fits { result < 2 ^ 63 }
        ensures key { IsKey self.now }
    {
        // The contract of `algorithm` says that the text is a digest, which `key` needs.
        let _ = self.digest.algorithm();
        self.size
    }

    /// Returns whether these bytes are the key's content: they have its size and its digest (OCI
    /// image-spec 1.1, descriptor.md, "Verification"). Bytes of another size are not hashed. Does
    /// not allocate.
    pub fn matches(&self, bytes: &[u8]) -> bool
        ensures { IsTrue result ↔ Matches self.now bytes.now }
    {
        bytes.len() as u64 == self.size && self.digest.matches(bytes)
    }

    /// Returns the allocator.
    pub fn allocator(&self) -> Global {
        self.alloc
    }

    /// Returns an equal key. Allocates only if the media type is not a common one.
    ///
    /// # Errors
    ///
    /// Returns [`NoMemory`] if an allocation fails.
    pub fn try_clone(&self) -> Result<Key, NoMemory>
        ensures { IfOk result (λ k. k ≡ self.now) }
    {
        Ok(Key {
            alloc: self.alloc,
            media_type: self.media_type.try_clone()?,
            digest: self.digest,
            size: self.size,
        })
    }
}

/// Prints `<digest> <size> <mediaType>`, with the size in decimal.
impl fmt::Display for Key {
    ghost use Rattle.oci_manifest.specs.Descriptor.{key_text};

    ghost output = { λ k. Some (key_text k) };

    fn fmt<W: fmt::Write>(&self, f: &mut fmt::Formatter<W>) -> fmt::Result {
        let (digest, size, media_type) = (self.digest(), self.size(), self.media_type());
        write!(f, "{digest} {size} {media_type}")
    }
}

impl fmt::Debug for Key {
    ghost use Rattle.std.specs.Prelude.{◌++◌, codes};
    ghost use Rattle.oci_manifest.specs.Descriptor.{key_text};

    ghost debug_output = { λ k. Some (codes "Key(" ++ key_text k ++ codes ")") };

    fn fmt<W: fmt::Write>(&self, f: &mut fmt::Formatter<W>) -> fmt::Result {
        write!(f, "Key({self})")
    }
}

/// A key is written as a descriptor with its required properties, `mediaType`, `digest` and `size`
/// (OCI image-spec 1.1, descriptor.md, "Properties").
impl Described for Key {
    ghost use Rattle.oci_manifest.specs.Written.{WritesKey};

    ghost writes = { WritesKey };
}

impl Serialize for Key {
    fn serialize<S: Serializer>(&self, out: &mut S) -> Result<(), S::Error> {
        out.begin_map(Some(3))?;
        out.key("mediaType")?;
        out.str(self.media_type())?;
        out.key("digest")?;
        let Ok(digest) = text_of(&self.digest) else {
            return Err(out.custom("the text of a digest is too long"));
        };
        out.str(digest.as_str())?;
        out.key("size")?;
        out.u64(self.size)?;
        out.end_map()
    }
}

/// Returns the text of a digest. Does not allocate.
fn text_of(digest: &Digest) -> Result<ArrayString<LONGEST_DIGEST>, fmt::Error>
    ensures { IfOk result (λ text. text.bytes ≡ digest.now) }
{
    let mut text = ArrayString::new();
    write!(text, "{digest}")?;
    Ok(text)
}

/// Two keys are equal if all three parts are equal.
impl PartialEq for Key {
    ghost use Rattle.std.proofs.Common.{rules};
    ghost use Rattle.std.specs.Cmp.Rules.{comparing};
    ghost use Rattle.oci_manifest.specs.Descriptor.{same_key};

    ghost eq = { same_key };

    ghost laws = { Prim.search (comparing, rules) };

    fn eq(&self, other: &Key) -> bool {
        self.media_type() == other.media_type()
            && self.digest == other.digest
            && self.size == other.size
    }
}

impl Eq for Key {
    ghost use Rattle.std.proofs.Common.{rules};
    ghost use Rattle.std.specs.Cmp.Rules.{comparing};

    ghost laws = { Prim.search (comparing, rules) };
}

/// Orders keys by the bytes of the media type, then by the digest's text, then by size.
impl Ord for Key {
    ghost use Rattle.std.proofs.Common.{rules};
    ghost use Rattle.std.specs.Cmp.Rules.{comparing};
    ghost use Rattle.oci_manifest.specs.Descriptor.{key_cmp};

    ghost cmp = { key_cmp };

    ghost total = { Prim.search (comparing, rules) };

    ghost matches_partial_cmp = { Prim.search (comparing, rules) };

    ghost matches_eq = { Prim.search (comparing, rules) };

    fn cmp(&self, other: &Key) -> Ordering {
        self.media_type()
            .cmp(other.media_type())
            .then(self.digest.cmp(&other.digest))
            .then(self.size.cmp(&other.size))
    }
}

impl PartialOrd for Key {
    ghost use Rattle.std.proofs.Common.{rules};
    ghost use Rattle.std.specs.Cmp.{partial_order_from_own_ties};
    ghost use Rattle.std.specs.Cmp.Rules.{comparing};
    ghost use Rattle.std.specs.Ordering.{as_partial_cmp};
    ghost use Rattle.oci_manifest.specs.Descriptor.{key_cmp};

    ghost partial_cmp = { as_partial_cmp key_cmp };

    ghost laws = { partial_order_from_own_ties (Prim.search (comparing, rules))
        (Prim.search (comparing, rules)) };

    fn partial_cmp(&self, other: &Key) -> Option<Ordering> {
        Some(self.cmp(other))
    }
}
