ghost use Rattle.std.specs.Prelude.{IfOk};
ghost use Rattle.oci_program.specs.Opened.{IsOpenedSettled};

use crate::fault::ProgramFault;
use oci_dir::Dir;
use oci_layout_store::Layout;
use std::alloc::Global;

/// Opens the layout in a directory as it is, and waits until its index is on the disk. A process
/// that was killed may have replaced it shortly before.
///
/// # Errors
///
/// - 70 to 74 if the directory has no layout, or it cannot be read, or its index is no object with a
///   list `manifests`; 74 also if it is not known whether the index is on the disk.
/// - Out of memory, at any point.
pub fn open_settled<D: Dir + Drop>(alloc: Global, dir: D) -> Result<Layout<D>, ProgramFault>
    ensures { IfOk result (IsOpenedSettled D.device dir) }
{
    let mut layout = Layout::open_as_is(alloc, dir)?;
    match layout.settle_index() {
        Ok(()) => Ok(layout),
        Err(fault) => Err(ProgramFault::Layout(fault)),
    }
}
