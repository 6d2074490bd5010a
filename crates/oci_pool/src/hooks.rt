use oci_manifest::Key;

/// The calls that a copy makes for each key. They have no result and do not change the copy. They
/// are assumed to terminate.
///
/// Workers call them, so a copy by workers requires `Hooks + Sync`.
pub trait Hooks {
    /// Called by a worker before the content of the key is fetched.
    fn pre_copy(&self, key: &Key);

    /// Called by a worker, without any lock, for each part of the key's content after it was
    /// fetched, with the number of its bytes. A content that is fetched whole is one part. Does
    /// nothing by default.
    fn part_arrived(&self, _key: &Key, _length: usize) {}

    /// Called by a worker after the key was pushed.
    fn post_copy(&self, key: &Key);

    /// Called on the calling thread for each distinct root that the destination has, before any
    /// other hook.
    fn skipped(&self, key: &Key);
}

/// Hooks that do nothing.
#[derive(Debug, Drop)]
pub struct NoHooks;

impl Hooks for NoHooks {
    fn pre_copy(&self, _key: &Key) {}

    fn post_copy(&self, _key: &Key) {}

    fn skipped(&self, _key: &Key) {}
}
