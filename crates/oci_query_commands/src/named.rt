ghost use Rattle.std.specs.Prelude.{◌≡◌, true, option_copied, IfErr, IfOk};
ghost use Rattle.oci_store.specs.Keyed.{has_key};
ghost use Rattle.oci_reference.specs.Platform.{IsPickFault};
ghost use Rattle.oci_query_commands.specs.Named.{IsFirstFor, IsNamed, IsNamedFault};

use oci_dir::Dir;
use oci_layout_store::Layout;
use oci_manifest::Key;
use oci_program::ProgramFault;
use oci_reference::{pick_platform, resolve};

/// Returns the key that a reference of a layout names, or with a platform, that of the first manifest
/// which the index that the reference names lists for the platform.
///
/// # Errors
///
/// Those of [`resolve`], and with a platform those of [`pick_platform`].
pub(crate) fn named_key<D: Dir>(
    layout: &Layout<D>,
    reference: &str,
    platform: Option<&str>,
) -> Result<Key, ProgramFault>
    ensures named { IfOk result (IsNamed (D.device layout.now.dir) layout.now.graph
        layout.now.tags reference.now (option_copied platform.entry)) }
    ensures held { IfOk result (λ key. has_key layout.now.graph key ≡ true) }
    ensures refused { IfErr result (IsNamedFault (D.device layout.now.dir) layout.now
        reference.now (option_copied platform.entry)) }
{
    let key = resolve(layout, reference)?;
    match platform {
        Some(platform) => picked_key(layout, &key, platform),
        None => Ok(key),
    }
}

/// Returns the key of the first manifest that an index lists for a platform.
fn picked_key<D: Dir>(layout: &Layout<D>, index: &Key, platform: &str) -> Result<Key, ProgramFault>
    ensures first { IfOk result
        (IsFirstFor (D.device layout.now.dir) layout.now.graph index.now platform.now) }
    ensures held { IfOk result (λ key. has_key layout.now.graph key ≡ true) }
    ensures refused { IfErr result
        (IsPickFault (D.device layout.now.dir) layout.now.graph index.now platform.now) }
{
    let picked = pick_platform(layout, index, platform)?;
    Ok(picked.key.try_clone()?)
}
