ghost use Rattle.std.specs.Prelude.{List};
ghost use Rattle.oci_manifest.specs.Descriptor.{Descriptor};
ghost use Rattle.oci_store.specs.State.{State};

use std::marker::Brand;

/// The state of both stores at the start of a run of workers, as the contracts name it. It has no
/// value: it is noted once, when the run begins.
pub trait CopyStart {
    /// The state of the source.
    ghost source: { State };

    /// The state of the destination when the run began.
    ghost opening: { State };

    /// The planned keys.
    ghost planned: { List Descriptor };
}

impl CopyStart for Brand {
    ghost use Rattle.std.specs.Prelude.{[]};
    ghost use Rattle.oci_store.specs.State.{in_memory};

    ghost source = { in_memory [] [] };

    ghost opening = { in_memory [] [] };

    ghost planned = { [] };
}
