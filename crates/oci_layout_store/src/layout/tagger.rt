ghost use Rattle.std.specs.Prelude.{◌≡◌, OnOk, OnErr};
ghost use Rattle.oci_store.specs.Tags.{set_tag, AnswersTag};
ghost use Rattle.oci_layout_store.specs.Layout.{OnlyTags};

use crate::layout::Layout;
use oci_dir::Dir;
use oci_manifest::Key;
use oci_store::{RefFault, Tagger};

impl<D: Dir> Tagger for Layout<D> {
    /// Names a held key. Does not change the directory: `save` writes the names.
    fn tag(&mut self, key: &Key, name: &str) -> Result<(), RefFault>
        ensures tagged { OnOk result (self.new.tags ≡ set_tag self.old.tags name.now key.now) }
        ensures answer { AnswersTag self.old.graph key.now name.now result }
        ensures only { OnlyTags self.old self.new }
        ensures untouched { OnErr result (self.new ≡ self.old) }
    {
        self.tags.tag(&self.graph, key, name)
    }

    fn resolve(&self, reference: &str) -> Result<Key, RefFault> {
        self.tags.resolve(&self.graph, reference)
    }
}
