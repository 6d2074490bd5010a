ghost use Rattle.std.specs.Prelude.{◌≡◌, OnOk, OnErr, IsErrOf};
ghost use Rattle.oci_store.specs.Tags.{without_tag, AnswersUntag};
ghost use Rattle.oci_layout_store.specs.Layout.{OnlyTags};

use crate::layout::Layout;
use oci_dir::Dir;
use oci_manifest::Key;
use oci_store::{RefFault, Untagger};

impl<D: Dir> Untagger for Layout<D> {
    /// Removes a tag, and returns the key that it named. Does not allocate, and does not change the
    /// directory: `save` writes the names.
    fn untag(&mut self, name: &str) -> Result<Key, RefFault>
        ensures untagged { OnOk result (self.new.tags ≡ without_tag self.old.tags name.now) }
        ensures answer { AnswersUntag self.old.tags name.now result }
        ensures memory { IsErrOf result RefFault.Memory → ⊥ }
        ensures only { OnlyTags self.old self.new }
        ensures untouched { OnErr result (self.new ≡ self.old) }
    {
        self.tags.untag(&self.graph, name)
    }
}
