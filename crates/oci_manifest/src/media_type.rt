//! The stored form of a media type. The common ones, which nearly every image has, need no memory.
ghost use Rattle.std.specs.Prelude.{◌≡◌, IfOk, IfSome, string_bytes};
ghost use Rattle.oci_manifest.specs.MediaTypes.{common_text, text_in};

use oci_digest::NoMemory;
use std::alloc::Global;

/// The media types of common images (OCI image-spec 1.1, media-types.md; Docker Image Manifest V2,
/// Schema 2).
#[derive(Clone, Copy)]
pub(crate) enum Common {
    Image,
    Index,
    Config,
    Empty,
    Layer,
    LayerGzip,
    LayerZstd,
    DockerImage,
    DockerList,
    DockerConfig,
    DockerLayer,
}

/// All common media types, the most frequent ones first.
const ALL: [Common; 11] = [
    Common::LayerGzip,
    Common::Layer,
    Common::LayerZstd,
    Common::Config,
    Common::Image,
    Common::Index,
    Common::Empty,
    Common::DockerLayer,
    Common::DockerConfig,
    Common::DockerImage,
    Common::DockerList,
];

impl Common {
    /// Returns the common media type with this text.
    fn of(text: &str) -> Option<Common>
        ensures { IfSome result (λ common. common_text common ≡ text.now) }
    {
        ALL.iter().copied().find(|common| common.as_str() == text)
    }

    fn as_str(&self) -> &'static str
        ensures { result.now ≡ common_text self.now }
    {
        match self {
            Common::Image => "application/vnd.oci.image.manifest.v1+json",
            Common::Index => "application/vnd.oci.image.index.v1+json",
            Common::Config => "application/vnd.oci.image.config.v1+json",
            Common::Empty => "application/vnd.oci.empty.v1+json",
            Common::Layer => "application/vnd.oci.image.layer.v1.tar",
            Common::LayerGzip => "application/vnd.oci.image.layer.v1.tar+gzip",
            Common::LayerZstd => "application/vnd.oci.image.layer.v1.tar+zstd",
            Common::DockerImage => "application/vnd.docker.distribution.manifest.v2+json",
            Common::DockerList => "application/vnd.docker.distribution.manifest.list.v2+json",
            Common::DockerConfig => "application/vnd.docker.container.image.v1+json",
            Common::DockerLayer => "application/vnd.docker.image.rootfs.diff.tar.gzip",
        }
    }
}

/// A media type, which is any text. A common one is copied and compared without heap access.
pub(crate) enum MediaType {
    Common(Common),
    Other(String),
}

/// Not derived: with a written `Drop`, the proofs above see one call per dropped key instead of one
/// path per variant.
impl Drop for MediaType {
    fn drop(self) {
        match self {
            MediaType::Common(_) => {}
            MediaType::Other(text) => drop(text),
        }
    }
}

impl MediaType {
    /// Creates the media type with this text. Does not allocate, and drops the text of a common
    /// one.
    pub(crate) fn new(text: String) -> MediaType
        ensures { text_in result ≡ string_bytes text }
    {
        match Common::of(text.as_str()) {
            Some(common) => MediaType::Common(common),
            None => MediaType::Other(text),
        }
    }

    /// Creates the media type with a copy of this text. Allocates only if it is not a common one.
    pub(crate) fn copied(alloc: Global, text: &str) -> Result<MediaType, NoMemory>
        ensures { IfOk result (λ copy. text_in copy ≡ text.now) }
    {
        match Common::of(text) {
            Some(common) => Ok(MediaType::Common(common)),
            None => Ok(MediaType::Other(String::from_str(alloc, text)?)),
        }
    }

    pub(crate) fn as_str(&self) -> &str
        ensures { result.now ≡ text_in self.now }
    {
        match self {
            MediaType::Common(common) => common.as_str(),
            MediaType::Other(text) => text.as_str(),
        }
    }

    /// Returns an equal media type. Allocates only if it is not a common one.
    pub(crate) fn try_clone(&self) -> Result<MediaType, NoMemory>
        ensures { IfOk result (λ copy. text_in copy ≡ text_in self.now) }
    {
        match self {
            MediaType::Common(common) => Ok(MediaType::Common(*common)),
            MediaType::Other(text) => Ok(MediaType::Other(text.clone()?)),
        }
    }
}
