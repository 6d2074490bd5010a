use crate::tests::texts::{EMPTY, IMAGE_0, assert_text};
use oci_manifest::Key;
use oci_store::{MemoryStore, RefFault, Tagger};
use std::alloc::Global;
use std::process::Abort;
use std::test::Fail;
use test_support::Sample::{Empty, Foo, Image0};
use test_support::{Sample, memory};

/// Returns the key that a reference resolved to, or the error, as text.
fn line(alloc: Global, resolved: &Result<Key, RefFault>) -> Result<String, Fail> {
    match resolved {
        Ok(key) => Ok(key.to_string(alloc)?),
        Err(fault) => Ok(fault.to_string(alloc)?),
    }
}

/// Tags a sample's key, and returns the key that the name then resolves to, or the error, as text.
fn tagged(
    alloc: Global,
    store: &mut MemoryStore,
    sample: Sample,
    name: &str,
) -> Result<String, Fail> {
    let key = sample.key(alloc)?;
    match store.tag(&key, name) {
        Ok(()) => line(alloc, &store.resolve(name)),
        Err(fault) => Ok(fault.to_string(alloc)?),
    }
}

/// A sample to be tagged, or none; a name; and the key that the name then resolves to, or the error.
type Step = (Option<Sample>, &'static str, &'static str);

/// Takes a step, and returns its result as text.
fn taken(
    alloc: Global,
    store: &mut MemoryStore,
    sample: Option<Sample>,
    name: &str,
) -> Result<String, Fail> {
    match sample {
        Some(sample) => tagged(alloc, store, sample, name),
        None => line(alloc, &store.resolve(name)),
    }
}

fn push_name(alloc: Global, text: &mut String, name: &str, key: &Key) -> Result<(), Fail> {
    text.push_str(format!(in alloc; "{name} {key}\n")?.as_str())?;
    Ok(())
}

/// Returns the names of the store and their keys as text, one line for each.
fn listed(alloc: Global, store: &MemoryStore) -> Result<String, Fail> {
    let mut text = String::new(alloc);
    for (name, key) in &store.tags()? {
        push_name(alloc, &mut text, name.as_str(), key)?;
    }
    Ok(text)
}

const EMPTY_DIGEST: &str =
    "sha256:44136fa355b3678a1146ad16f7e8649e94fb4fc21fe77e8310c060f61caaff8a";

/// A digest is a reference until a tag has its text. A refused tag changes nothing, and a tag that
/// is set again is moved.
const STEPS: [Step; 9] = [
    (None, EMPTY_DIGEST, EMPTY),
    (None, "x", "36 UnknownReference"),
    (None, "", "35 EmptyReference"),
    (Some(Image0), "m", IMAGE_0),
    (Some(Foo), "m", "37 NotHeld"),
    (Some(Empty), "", "35 EmptyReference"),
    (None, "m", IMAGE_0),
    (Some(Empty), "m", EMPTY),
    (Some(Image0), EMPTY_DIGEST, IMAGE_0),
];

/// Takes the steps with a store, and asserts its names, in byte order.
fn assert_steps<R: AllocGlobal + Abort>(rt: &R, store: &mut MemoryStore) -> Result<(), Fail> {
    for (sample, name, want) in &STEPS {
        let got = taken(rt.alloc(), store, *sample, name)?;
        assert_text(rt, name, got.as_str(), &[want])?;
    }
    let names = listed(rt.alloc(), store)?;
    let want = ["m ", EMPTY, "\n", EMPTY_DIGEST, " ", IMAGE_0, "\n"];
    assert_text(rt, &"names", names.as_str(), &want)
}

#[test]
fn tags(rt: HostRuntime) -> Result<(), Fail> {
    assert_steps(&rt, &mut memory(rt.alloc(), &[Empty, Image0])?)
}
