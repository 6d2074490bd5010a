use crate::{Content, Device, DeviceStore, IMAGE, OneContent, Sample, image};
use bytes::Bytes;
use oci_manifest::Key;
use oci_store::{ClosedStore, Dest, MemoryStore, PushFault, Source};
use std::alloc::Global;
use std::test::Fail;

fn push_key(alloc: Global, keys: &mut Vec<Key>, sample: Sample) -> Result<(), Fail> {
    keys.push(sample.key(alloc)?)?;
    Ok(())
}

/// Returns the keys of these samples.
pub fn keys(alloc: Global, samples: &[Sample]) -> Result<Vec<Key>, Fail> {
    let mut keys = Vec::new(alloc);
    for sample in samples {
        push_key(alloc, &mut keys, *sample)?;
    }
    Ok(keys)
}

/// Returns whether a push succeeded.
fn pushed(answer: &Result<usize, PushFault>) -> bool {
    answer.is_ok()
}

/// Puts content into a memory store, unless its key is held. Returns whether it was put.
fn put(store: &mut MemoryStore, key: &Key, bytes: Bytes) -> bool {
    pushed(&store.push(key, bytes))
}

/// Puts content into a memory store, unless its key is held, and returns its key.
pub fn put_content(alloc: Global, store: &mut MemoryStore, content: Content) -> Result<Key, Fail> {
    let key = content.key(alloc)?;
    let Content { bytes, .. } = content;
    put(store, &key, Bytes::from_vec(bytes.into_bytes())?);
    Ok(key)
}

/// Returns an image whose subject is the content with this descriptor.
fn image_on(alloc: Global, subject: &str) -> Result<Content, Fail> {
    let rest = format!(in alloc; "null,\"subject\":{subject}}}")?;
    image(alloc, rest.as_str())
}

/// Puts a content into the store, and returns an image with this content as its subject.
fn put_subject(alloc: Global, store: &mut MemoryStore, subject: Content) -> Result<Content, Fail> {
    let next = image_on(alloc, subject.descriptor(alloc)?.as_str())?;
    put_content(alloc, store, subject)?;
    Ok(next)
}

/// Puts a chain of images into the store, each with the image before it as its subject, and returns
/// the key of the last.
pub fn put_chain(alloc: Global, store: &mut MemoryStore, length: u32) -> Result<Key, Fail> {
    let mut last = Sample::Image0.content(alloc)?;
    for _ in 1..length {
        last = put_subject(alloc, store, last)?;
    }
    put_content(alloc, store, last)
}

fn put_sample(alloc: Global, store: &mut MemoryStore, sample: Sample) -> Result<(), Fail> {
    let key = sample.key(alloc)?;
    put(store, &key, sample.bytes(alloc)?);
    Ok(())
}

/// Returns a memory store with these samples, pushed in this order.
pub fn memory(alloc: Global, samples: &[Sample]) -> Result<MemoryStore, Fail> {
    let mut store = MemoryStore::new(alloc);
    for sample in samples {
        put_sample(alloc, &mut store, *sample)?;
    }
    Ok(store)
}

fn push_sample<D: Dest>(alloc: Global, store: &mut D, sample: Sample) -> Result<(), Fail> {
    let key = sample.key(alloc)?;
    pushed(&store.push_closed(&key, sample.bytes(alloc)?));
    Ok(())
}

fn put_closed<D: Dest + Drop>(alloc: Global, mut store: D, samples: &[Sample]) -> Result<D, Fail> {
    for sample in samples {
        push_sample(alloc, &mut store, *sample)?;
    }
    Ok(store)
}

/// Returns a closed store with these samples, pushed in this order.
pub fn closed(alloc: Global, samples: &[Sample]) -> Result<ClosedStore, Fail> {
    put_closed(alloc, ClosedStore::new(alloc), samples)
}

/// Returns a store on a device with these samples, pushed in this order.
pub fn on_device<'d>(
    alloc: Global,
    device: &'d Device,
    samples: &[Sample],
) -> Result<DeviceStore<'d>, Fail> {
    put_closed(alloc, DeviceStore::new(alloc, device), samples)
}

/// Returns a source of an image whose bytes are an empty JSON list, and the key of that image.
pub fn unreadable(alloc: Global) -> Result<(OneContent, Key), Fail> {
    let content = Content {
        media_type: IMAGE,
        bytes: String::from_str(alloc, "[]")?,
    };
    let key = content.key(alloc)?;
    let Content { bytes, .. } = content;
    let bytes = Bytes::from_vec(bytes.into_bytes())?;
    Ok((OneContent::new(key.try_clone()?, bytes), key))
}

/// Returns whether the store has these bytes under the key.
pub fn gives<A: Source>(store: &A, key: &Key, bytes: &Bytes) -> bool {
    match store.fetch(key) {
        Ok(fetched) => fetched == *bytes,
        Err(_) => false,
    }
}

/// Returns whether the store has the sample.
pub fn gives_sample<A: Source>(alloc: Global, store: &A, sample: Sample) -> Result<bool, Fail> {
    let key = sample.key(alloc)?;
    Ok(gives(store, &key, &sample.bytes(alloc)?))
}

/// Returns whether the store has exactly these samples.
pub fn holds<A: Source + Dest>(alloc: Global, store: &A, samples: &[Sample]) -> Result<bool, Fail> {
    for sample in samples {
        if !gives_sample(alloc, store, *sample)? {
            return Ok(false);
        }
    }
    Ok(store.count() == samples.len())
}

/// Returns whether the store holds every key that its contents list.
pub fn is_closed<D: Dest>(store: &D) -> Result<bool, Fail> {
    Ok(store.missing()?.is_none())
}
