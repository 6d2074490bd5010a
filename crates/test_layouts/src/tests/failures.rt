//! The first call of the system that fails in a folder.

use crate::tests::host::Host;
use crate::tests::texts::assert_told;
use oci_layout::{Dir, FirstFailure, FsDir};
use std::alloc::Global;
use std::fs;
use std::test::Fail;

/// The number of `EISDIR` on Linux: a file cannot take the place of a folder.
const IS_A_FOLDER: i32 = 21;

/// Returns whether a directory has noted a failure.
fn has_noted<D: Dir>(dir: &D) -> bool {
    match dir.first_failure() {
        Some(first) => first.get().is_some(),
        None => false,
    }
}

/// Reads a file that is not there, puts a file at `one`, and reads `two`. Returns as text whether
/// the file was there, whether a failure was noted for it, and whether the put and the read were
/// done.
fn used<D: Dir + Drop>(alloc: Global, mut dir: D) -> Result<String, Fail> {
    let found = dir.read("nothing")?.is_some();
    let noted = has_noted(&dir);
    let put = dir.put("one", b"foo").is_ok();
    let read = dir.read("two").is_ok();
    Ok(format!(in alloc; "{found} {noted} {put} {read}")?)
}

/// A file that is not there is no failure. Of two calls that fail, the first is noted.
#[test]
fn the_first_failure_is_noted(rt: HostRuntime) -> Result<(), Fail> {
    let _ = fs::remove_dir_all(&rt, "noted");
    fs::create_dir_all(&rt, "noted/one")?;
    fs::create_dir_all(&rt, "noted/two")?;
    let first = FirstFailure::new(rt.alloc());
    let told = used(rt.alloc(), FsDir::noting(&rt, "noted", &first)?)?;
    assert_told(
        &rt,
        &"in a folder",
        told.as_str(),
        "false false false false",
    )?;
    let Some(failure) = first.get() else {
        return Err(Fail::from("nothing was noted"));
    };
    assert_eq!(rt; failure.path.as_str(), "noted/one");
    assert_eq!(rt; failure.error.raw_os_error(), Some(IS_A_FOLDER));
    Ok(fs::remove_dir_all(&rt, "noted")?)
}
