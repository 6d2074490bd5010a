//! Expected texts, which are joined from parts.

use oci_manifest::Key;
use std::alloc::Global;
use std::fmt::Debug;
use std::process::Abort;
use std::test::Fail;

/// The printed keys of samples. Python's hashlib computed the digests from the texts of the
/// contents.
pub(crate) const EMPTY: &str =
    "sha256:44136fa355b3678a1146ad16f7e8649e94fb4fc21fe77e8310c060f61caaff8a 2 application/vnd.oci.empty.v1+json";

pub(crate) const FOO: &str =
    "sha256:2c26b46b68ffc68ff99b453c1d30413413422d706483bfa0f98a5e886266e7ae 3 application/vnd.oci.image.layer.v1.tar";

pub(crate) const BAR: &str =
    "sha256:fcde2b2edba56bf408601fb721fe9b5c338d10ee429ea04fae5511b68fbf8fb9 3 application/vnd.oci.image.layer.v1.tar";

pub(crate) const IMAGE_0: &str =
    "sha256:88028e7a699c392898fd180bf967edbcdb6227a9b7434a3ba0c9efff269e613f 241 application/vnd.oci.image.manifest.v1+json";

pub(crate) const IMAGE_2: &str =
    "sha256:7e1df211bc4556d2a9db939a81721c52e5e53c59e3dfb45a57205a794dd412b7 385 application/vnd.oci.image.manifest.v1+json";

pub(crate) const IMAGE_3: &str =
    "sha256:3f167608abdb6f3e8f7a3c6ac3957c7da7b621d2536c484e8419ae104fba9b34 532 application/vnd.oci.image.manifest.v1+json";

pub(crate) const INDEX_1: &str =
    "sha256:8ede3797b5d175cf105016f170f6e4a175a141a2865be8e6822edd38acd70711 339 application/vnd.oci.image.index.v1+json";

/// Returns the text of these parts.
fn joined(alloc: Global, parts: &[&str]) -> Result<String, Fail> {
    let mut text = String::new(alloc);
    for part in parts {
        text.push_str(part)?;
    }
    Ok(text)
}

fn push_key(alloc: Global, text: &mut String, words: &str, key: &Key) -> Result<(), Fail> {
    text.push_str(words)?;
    text.push_str(format!(in alloc; "{key};")?.as_str())?;
    Ok(())
}

/// Returns keys as text, each after these words and with a `;`.
pub(crate) fn line(alloc: Global, words: &str, keys: &[Key]) -> Result<String, Fail> {
    let mut text = String::new(alloc);
    for key in keys {
        push_key(alloc, &mut text, words, key)?;
    }
    Ok(text)
}

/// Asserts that a text is the wanted one. A failure also prints the row.
pub(crate) fn assert_same<T: Debug>(rt: &impl Abort, row: &T, got: &str, want: &str) {
    assert!(rt; got == want, "row {row:?}: {got}, not {want}");
}

/// Asserts that a text is that of these parts. A failure also prints the row.
pub(crate) fn assert_text<R: AllocGlobal + Abort, T: Debug>(
    rt: &R,
    row: &T,
    got: &str,
    want: &[&str],
) -> Result<(), Fail> {
    let want = joined(rt.alloc(), want)?;
    assert_same(rt, row, got, want.as_str());
    Ok(())
}
