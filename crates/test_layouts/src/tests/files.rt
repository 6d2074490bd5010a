//! Steps with the files of a directory.

use crate::tests::texts::{blob, expanded, utf8};
use oci_layout::{Dir, DirFault};
use std::alloc::Global;
use std::test::Fail;
use test_support::Sample;

/// A step with a file of a directory.
pub(crate) enum FileStep<'a> {
    /// Puts a text, which may have marks. Result: `put`, or the fault.
    Put(&'a str),
    /// Puts the blobs of these samples. Result: `put`.
    Blobs(&'a [Sample]),
    /// Result: the text, `none` if there is no such file, or the fault.
    Text,
    /// Result: the number of the directory's puts that failed.
    Failures,
}

/// Takes a step with a file of a directory. Its path may have marks. Returns the result.
pub(crate) fn in_dir<D: Dir>(
    alloc: Global,
    dir: &mut D,
    path: &str,
    step: &FileStep<'_>,
) -> Result<String, Fail> {
    let path = expanded(alloc, path)?;
    in_file(alloc, dir, path.as_str(), step)
}

fn in_file<D: Dir>(
    alloc: Global,
    dir: &mut D,
    path: &str,
    step: &FileStep<'_>,
) -> Result<String, Fail> {
    match step {
        FileStep::Put(text) => put(alloc, dir, path, text),
        FileStep::Blobs(samples) => put_blobs(alloc, dir, samples),
        FileStep::Text => text(alloc, dir, path),
        FileStep::Failures => Ok(format!(in alloc; "{}", dir.failures())?),
    }
}

/// Returns the word for a success, or the fault.
fn told_of(alloc: Global, answer: Result<(), DirFault>, done: &str) -> Result<String, Fail> {
    match answer {
        Ok(()) => Ok(String::from_str(alloc, done)?),
        Err(fault) => Ok(format!(in alloc; "{fault}")?),
    }
}

fn put<D: Dir>(alloc: Global, dir: &mut D, path: &str, text: &str) -> Result<String, Fail> {
    let text = expanded(alloc, text)?;
    told_of(alloc, dir.put(path, text.as_bytes()), "put")
}

pub(crate) fn put_blob<D: Dir>(alloc: Global, dir: &mut D, sample: Sample) -> Result<(), Fail> {
    let path = blob(alloc, &sample.key(alloc)?)?;
    dir.put(path.as_str(), sample.bytes(alloc)?.as_slice())?;
    Ok(())
}

fn put_blobs<D: Dir>(alloc: Global, dir: &mut D, samples: &[Sample]) -> Result<String, Fail> {
    for sample in samples {
        put_blob(alloc, dir, *sample)?;
    }
    Ok(String::from_str(alloc, "put")?)
}

/// Returns the text of a file, `none` if there is no such file, or the fault.
pub(crate) fn text<D: Dir>(alloc: Global, dir: &D, path: &str) -> Result<String, Fail> {
    match dir.read(path) {
        Ok(Some(bytes)) => utf8(alloc, bytes.as_slice()),
        Ok(None) => Ok(String::from_str(alloc, "none")?),
        Err(fault) => Ok(format!(in alloc; "{fault}")?),
    }
}
