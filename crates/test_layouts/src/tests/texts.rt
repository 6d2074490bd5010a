//! Texts with marks, each in place of a text of a sample.

use oci_manifest::Key;
use std::alloc::Global;
use std::fmt::Display;
use std::process::Abort;
use std::test::Fail;
use test_support::Sample;
use test_support::Sample::{
    Bar, Empty, Foo, FooBySha512, Image0, Image2, Image3, Index1, Index3, Referrer,
};

/// The kind of text that replaces a mark.
#[derive(Clone, Copy)]
enum Form {
    /// The key.
    Whole,
    /// The digest.
    Digest,
    /// The path of the blob.
    Blob,
    /// The bytes, which are text.
    Text,
    /// The members of the descriptor.
    Members,
    /// The members of the descriptor as `save` writes them, in the order of their names.
    Saved,
}

/// The marks, and the texts that they are replaced by.
static MARKS: [(&str, Form, Sample); 29] = [
    ("<key Empty>", Form::Whole, Empty),
    ("<key Foo>", Form::Whole, Foo),
    ("<key FooBySha512>", Form::Whole, FooBySha512),
    ("<key Bar>", Form::Whole, Bar),
    ("<key Image0>", Form::Whole, Image0),
    ("<key Image2>", Form::Whole, Image2),
    ("<key Image3>", Form::Whole, Image3),
    ("<key Index1>", Form::Whole, Index1),
    ("<digest Empty>", Form::Digest, Empty),
    ("<digest Foo>", Form::Digest, Foo),
    ("<digest Image0>", Form::Digest, Image0),
    ("<blob Empty>", Form::Blob, Empty),
    ("<blob Foo>", Form::Blob, Foo),
    ("<blob Image0>", Form::Blob, Image0),
    ("<blob Image3>", Form::Blob, Image3),
    ("<text Empty>", Form::Text, Empty),
    ("<text Image0>", Form::Text, Image0),
    ("<members Foo>", Form::Members, Foo),
    ("<members Bar>", Form::Members, Bar),
    ("<members Image0>", Form::Members, Image0),
    ("<members Image2>", Form::Members, Image2),
    ("<members Image3>", Form::Members, Image3),
    ("<members Index1>", Form::Members, Index1),
    ("<saved Image0>", Form::Saved, Image0),
    ("<saved Image2>", Form::Saved, Image2),
    ("<saved Image3>", Form::Saved, Image3),
    ("<saved Index1>", Form::Saved, Index1),
    ("<saved Index3>", Form::Saved, Index3),
    ("<saved Referrer>", Form::Saved, Referrer),
];

/// Returns the path of the blob of a key.
pub(crate) fn blob(alloc: Global, key: &Key) -> Result<String, Fail> {
    let (algorithm, digits) = (key.digest().algorithm(), key.digest().encoded(alloc)?);
    Ok(format!(in alloc; "blobs/{algorithm}/{digits}")?)
}

/// Returns bytes as text.
pub(crate) fn utf8(alloc: Global, bytes: &[u8]) -> Result<String, Fail> {
    let text = str::from_utf8(bytes)?;
    Ok(String::from_str(alloc, text)?)
}

/// Returns the text of a sample.
fn text_of(alloc: Global, sample: Sample) -> Result<String, Fail> {
    let content = sample.content(alloc)?;
    Ok(content.bytes)
}

fn shown_key(alloc: Global, form: Form, key: &Key) -> Result<String, Fail> {
    let (media_type, digest, size) = (key.media_type(), key.digest(), key.size());
    match form {
        Form::Digest => Ok(format!(in alloc; "{digest}")?),
        Form::Members => Ok(format!(in alloc;
            "\"mediaType\":\"{media_type}\",\"digest\":\"{digest}\",\"size\":{size}"
        )?),
        Form::Saved => Ok(format!(in alloc;
            "\"digest\":\"{digest}\",\"mediaType\":\"{media_type}\",\"size\":{size}"
        )?),
        _ => Ok(format!(in alloc; "{key}")?),
    }
}

/// Returns the text that replaces a mark.
fn shown(alloc: Global, form: Form, sample: Sample) -> Result<String, Fail> {
    match form {
        Form::Text => text_of(alloc, sample),
        Form::Blob => blob(alloc, &sample.key(alloc)?),
        _ => shown_key(alloc, form, &sample.key(alloc)?),
    }
}

/// Returns the text with one mark replaced in each of its places.
fn marked(
    alloc: Global,
    text: String,
    mark: &str,
    form: Form,
    sample: Sample,
) -> Result<String, Fail> {
    if !text.contains(mark) {
        return Ok(text);
    }
    let shown = shown(alloc, form, sample)?;
    Ok(text.replace(alloc, mark, shown.as_str())?)
}

/// Returns the text with all marks replaced.
pub(crate) fn expanded(alloc: Global, text: &str) -> Result<String, Fail> {
    let mut text = String::from_str(alloc, text)?;
    for (mark, form, sample) in &MARKS {
        text = marked(alloc, text, mark, *form, *sample)?;
    }
    Ok(text)
}

/// Asserts that a row's result is the expected text, which may have marks. A failure prints the
/// row.
pub(crate) fn assert_told<R: AllocGlobal + Abort, T: Display>(
    rt: &R,
    row: &T,
    told: &str,
    want: &str,
) -> Result<(), Fail> {
    let want = expanded(rt.alloc(), want)?;
    assert_eq!(rt; told, want.as_str(), "{row}");
    Ok(())
}
