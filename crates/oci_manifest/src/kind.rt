ghost use Rattle.std.specs.Prelude.{◌≡◌};
ghost use Rattle.oci_manifest.specs.MediaTypes.{kind_of, is_undistributed};

/// The kind of content, which decides how its bytes are read.
#[derive(Clone, Copy, Debug, PartialEq, Eq)]
pub enum Kind {
    /// An image manifest (OCI image-spec 1.1, manifest.md).
    Image,
    /// An image index (OCI image-spec 1.1, image-index.md).
    Index,
    /// A Docker image manifest (Image Manifest V2, Schema 2).
    DockerImage,
    /// A Docker manifest list (Image Manifest V2, Schema 2).
    DockerList,
    /// An artifact manifest (OCI image-spec 1.1.0-rc2, artifact.md).
    Artifact,
    /// Opaque bytes, which list nothing.
    Leaf,
}

impl Kind {
    /// Returns the kind of a media type. Does not allocate.
    ///
    /// Media types are compared byte for byte. One with a parameter, an upper-case letter or a
    /// space is a `Leaf`.
    #[tactic(auto, unfolding(crate::specs::MediaTypes::kind_of))]
    pub fn of(media_type: &str) -> Kind
        ensures { result ≡ kind_of media_type.now }
    {
        match media_type {
            "application/vnd.oci.image.manifest.v1+json" => Kind::Image,
            "application/vnd.oci.image.index.v1+json" => Kind::Index,
            "application/vnd.docker.distribution.manifest.v2+json" => Kind::DockerImage,
            "application/vnd.docker.distribution.manifest.list.v2+json" => Kind::DockerList,
            "application/vnd.oci.artifact.manifest.v1+json" => Kind::Artifact,
            _ => Kind::Leaf,
        }
    }
}

/// Returns whether layers of this media type are not distributed (OCI image-spec 1.1, layer.md,
/// "Non-Distributable Layers").
#[tactic(auto, unfolding(crate::specs::MediaTypes::is_undistributed))]
pub(crate) fn is_undistributed_type(media_type: &str) -> bool
    ensures { result ≡ is_undistributed media_type.now }
{
    matches!(
        media_type,
        "application/vnd.oci.image.layer.nondistributable.v1.tar"
            | "application/vnd.oci.image.layer.nondistributable.v1.tar+gzip"
            | "application/vnd.oci.image.layer.nondistributable.v1.tar+zstd"
            | "application/vnd.docker.image.rootfs.foreign.diff.tar.gzip"
    )
}
