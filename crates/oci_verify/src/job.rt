use crate::asked::is_asked;
use crate::file_check::is_corrupt;
use crate::watcher::FileWatcher;
use oci_dir::Dir;
use oci_layout_store::Layout;
use oci_manifest::Key;
use oci_pool::{Job, Pass};
use oci_store::FetchFault;
use std::collections::BTreeSet;

/// The job of each held key: to check its file, if it is asked for. The number of a key is its place in
/// the layout.
#[derive(Drop)]
pub(crate) struct FileCheck<'a, D: Dir, W> {
    pub(crate) layout: &'a Layout<D>,
    /// The keys that are asked for. `None`: all are.
    pub(crate) asked: Option<&'a BTreeSet<Key>>,
    pub(crate) watcher: &'a W,
}

impl<'a, D: Dir + Sync, W: FileWatcher + Sync> Job for FileCheck<'a, D, W> {
    /// Whether the key is asked for, and the file does not match it.
    type Out = bool;

    type Fault = FetchFault;

    ghost use Rattle.std.specs.Prelude.{option_copied};
    ghost use Rattle.oci_verify.specs.Corrupt.{is_asked, IsAnswer};
    ghost use Rattle.oci_verify.specs.Fault.{IsHeldFault};

    ghost answers = { λ j k corrupt. IsAnswer (is_asked (option_copied j.asked))
        (D.device j.layout.now.dir) j.layout.now.graph k corrupt };

    ghost fails = { λ j k f. IsHeldFault (D.device j.layout.now.dir) f };

    fn run(&self, number: u32, _pass: Pass) -> Result<bool, FetchFault> {
        let Some(key) = self.layout.key(number as usize) else {
            return Ok(false);
        };
        if !is_asked(self.asked, key) {
            return Ok(false);
        }
        let is_corrupt = is_corrupt(self.layout, key, self.watcher)?;
        self.watcher.file_checked();
        Ok(is_corrupt)
    }
}
