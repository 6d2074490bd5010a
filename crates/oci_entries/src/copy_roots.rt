use oci_manifest::Key;

/// The roots of a copy, and the tags that it sets without being asked for them.
#[derive(Drop)]
pub struct CopyRoots {
    /// The roots, each once.
    pub keys: Vec<Key>,
    /// The tags of the source that come with the others, in byte order of the names.
    pub tags: Vec<(String, Key)>,
}
