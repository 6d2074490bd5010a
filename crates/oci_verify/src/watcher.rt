use oci_store::PartWatcher;

/// Is told what was read of the files that are checked. The calls have no result and change
/// nothing. They are assumed to terminate.
///
/// Workers make them, so [`corrupt_keys`](crate::corrupt_keys) requires `FileWatcher + Sync`.
/// `()` ignores them.
pub trait FileWatcher: PartWatcher {
    /// Called by a worker after it checked a file, whatever it found. Does nothing by default.
    fn file_checked(&self) {}
}

impl FileWatcher for () {}
