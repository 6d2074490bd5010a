//! Steps with a layout, and layouts of samples.

use crate::tests::texts::{expanded, utf8};
use bytes::Bytes;
use oci_layout::{Dir, Layout, LayoutFault, MemDir};
use oci_manifest::Key;
use oci_store::{Dest, GraphSource, Source, Tagger};
use std::alloc::Global;
use std::test::Fail;
use test_support::Sample;

/// A question about the index of a layout and its entries.
pub(crate) enum Question {
    /// Result: the absent keys, each followed by `;`.
    Absent,
    /// Result: the damaged keys, each followed by `;`.
    Damaged,
    /// Result: the damaged keys of manifests, each followed by `;`.
    DamagedManifests,
    /// Result: the places of the entries that are no descriptors, each followed by `;`.
    Unreadable,
    /// Checks that each entry is a descriptor. Result: `good`, or the fault.
    CheckEntries,
    /// Result: the held keys of the entries that are written before the tags, each followed by `;`.
    Shadowed,
    /// Result: the remembered keys that state a subject, each followed by ` of `, the subject and `;`,
    /// or `not remembered`.
    Subjects,
}

/// A step with a layout.
pub(crate) enum LayoutStep<'a> {
    /// Result: the contents of the layout.
    Held,
    /// Saves it. Result: `saved`, or the fault.
    Save,
    /// Pushes a sample. Result: its place, or the fault.
    Push(Sample),
    /// Pushes a sample's bytes under another media type.
    PushAs(Sample, &'a str),
    /// Names a sample's key. Result: `tagged`.
    Tag(Sample, &'a str),
    /// Fetches a sample's key. Result: the bytes, which are text, or the fault.
    Fetch(Sample),
    /// Resolves a reference, which may have marks. Result: the key, or the fault.
    Resolve(&'a str),
    /// Result: the keys that a sample's key lists, each followed by `;`, or `not held`, and after a
    /// `/` the keys that list it.
    Links(Sample),
    /// Asks about the index and its entries. Result: the answer.
    Ask(Question),
    /// Checks the file of a sample's bytes under a media type. Result: `good`, or the fault.
    Check(Sample, &'a str),
    /// Result: the remembered entry at a place, under a name or without one, or `no entry`.
    Renamed(usize, Option<&'a str>),
    /// Brings the entries of a layout with this index, which may have marks. Result: `brought`.
    Bring(&'a str),
    /// Forgets the entries with the names of a layout with this index. Result: `forgotten`.
    Forget(&'a str),
    /// Forgets the entries with a name. Result: `forgotten`.
    ForgetNames,
    /// Takes out what the layout remembers of its index, and puts it back. Result: the number of
    /// entries that it remembered in between.
    TakeIndexAndPut,
}

/// Answers a question about a layout.
fn answered<D: Dir>(
    alloc: Global,
    layout: &Layout<D>,
    question: &Question,
) -> Result<String, Fail> {
    match question {
        Question::Absent => listed(alloc, layout.absent()),
        Question::Damaged => listed(alloc, layout.damaged()),
        Question::DamagedManifests => listed(alloc, &layout.damaged_manifests()?),
        Question::Unreadable => unreadable(alloc, layout),
        Question::CheckEntries => done_or_fault(alloc, layout.check_entries(), "good"),
        Question::Shadowed => listed(alloc, &layout.shadowed_keys()?),
        Question::Subjects => subjects(alloc, layout),
    }
}

/// Returns the remembered keys that state a subject, each with that.
fn subjects<D: Dir>(alloc: Global, layout: &Layout<D>) -> Result<String, Fail> {
    let Some(subjects) = layout.subjects() else {
        return Ok(String::from_str(alloc, "not remembered")?);
    };
    let mut text = String::new(alloc);
    for (key, subject) in subjects {
        text.push_str(format!(in alloc; "{key} of {subject};")?.as_str())?;
    }
    Ok(text)
}

/// Takes a step with a layout. Returns its result.
pub(crate) fn with_layout<D: Dir>(
    alloc: Global,
    layout: &mut Layout<D>,
    step: &LayoutStep<'_>,
) -> Result<String, Fail> {
    match step {
        LayoutStep::Held => summary(alloc, layout),
        LayoutStep::Save => done_or_fault(alloc, layout.save(), "saved"),
        LayoutStep::Push(sample) => push_sample(alloc, layout, *sample),
        LayoutStep::PushAs(sample, media_type) => push_as(alloc, layout, *sample, media_type),
        LayoutStep::Tag(sample, name) => tag(alloc, layout, *sample, name),
        LayoutStep::Fetch(sample) => fetch(alloc, layout, *sample),
        LayoutStep::Resolve(reference) => resolve(alloc, layout, reference),
        LayoutStep::Links(sample) => links(alloc, layout, &sample.key(alloc)?),
        LayoutStep::Ask(question) => answered(alloc, layout, question),
        LayoutStep::Check(sample, media_type) => check(alloc, layout, *sample, media_type),
        LayoutStep::Renamed(place, name) => renamed(alloc, layout, *place, *name),
        LayoutStep::Bring(index) => bring(alloc, layout, index),
        LayoutStep::Forget(index) => forget(alloc, layout, index),
        LayoutStep::ForgetNames => forget_names(alloc, layout),
        LayoutStep::TakeIndexAndPut => take_index_and_put(alloc, layout),
    }
}

/// Returns the layout that was created or opened.
pub(crate) fn made<D: Dir + Drop>(
    answer: Result<Layout<D>, (D, LayoutFault)>,
) -> Result<Layout<D>, Fail> {
    match answer {
        Ok(layout) => Ok(layout),
        Err((_, fault)) => Err(Fail::from(fault)),
    }
}

/// Creates a layout.
pub(crate) fn created<D: Dir + Drop>(alloc: Global, dir: D) -> Result<Layout<D>, Fail> {
    made(Layout::create(alloc, dir))
}

/// Opens the layout in a directory.
pub(crate) fn opened<D: Dir + Drop>(alloc: Global, dir: D) -> Result<Layout<D>, Fail> {
    made(Layout::open(alloc, dir))
}

/// Pushes samples into a layout.
pub(crate) fn push_samples<D: Dest>(
    alloc: Global,
    layout: &mut D,
    samples: &[Sample],
) -> Result<(), Fail> {
    for sample in samples {
        push_sample(alloc, layout, *sample)?;
    }
    Ok(())
}

/// Creates a layout in memory with these samples.
pub(crate) fn filled(alloc: Global, samples: &[Sample]) -> Result<Layout<MemDir>, Fail> {
    let mut layout = created(alloc, MemDir::new(alloc))?;
    push_samples(alloc, &mut layout, samples)?;
    Ok(layout)
}

/// Saves a layout with a name for a key.
pub(crate) fn save_named<D: Dir>(
    layout: &mut Layout<D>,
    key: &Key,
    name: &str,
) -> Result<(), Fail> {
    layout.tag(key, name)?;
    layout.save()?;
    Ok(())
}

/// Returns the directory in memory of a layout of these samples, which is saved with a name for one
/// of them.
pub(crate) fn saved(alloc: Global, samples: &[Sample], named: Sample) -> Result<MemDir, Fail> {
    let key = named.key(alloc)?;
    let mut layout = filled(alloc, samples)?;
    save_named(&mut layout, &key, "v1")?;
    Ok(layout.into_dir())
}

/// Returns the number of keys that a layout holds, and its names.
pub(crate) fn summary<D: Dir>(alloc: Global, layout: &Layout<D>) -> Result<String, Fail> {
    let mut told = format!(in alloc; "held {}", layout.count())?;
    let tags = layout.tags()?;
    for tag in &tags {
        told.push_str(" ")?;
        told.push_str(tag.0.as_str())?;
    }
    Ok(told)
}

/// Returns the word for a success, or the fault.
pub(crate) fn done_or_fault(
    alloc: Global,
    answer: Result<(), LayoutFault>,
    done: &str,
) -> Result<String, Fail> {
    match answer {
        Ok(()) => Ok(String::from_str(alloc, done)?),
        Err(fault) => Ok(format!(in alloc; "{fault}")?),
    }
}

/// Returns the result of a push as text: the place, or the fault.
pub(crate) fn push<D: Dest>(
    alloc: Global,
    layout: &mut D,
    key: &Key,
    bytes: Bytes,
) -> Result<String, Fail> {
    match layout.push_closed(key, bytes) {
        Ok(place) => Ok(format!(in alloc; "place {place}")?),
        Err(fault) => Ok(format!(in alloc; "{fault}")?),
    }
}

fn push_sample<D: Dest>(alloc: Global, layout: &mut D, sample: Sample) -> Result<String, Fail> {
    push(alloc, layout, &sample.key(alloc)?, sample.bytes(alloc)?)
}

fn push_as<D: Dest>(
    alloc: Global,
    layout: &mut D,
    sample: Sample,
    media_type: &str,
) -> Result<String, Fail> {
    let key = sample.content(alloc)?.key_as(alloc, media_type)?;
    push(alloc, layout, &key, sample.bytes(alloc)?)
}

fn tag<T: Tagger>(
    alloc: Global,
    layout: &mut T,
    sample: Sample,
    name: &str,
) -> Result<String, Fail> {
    layout.tag(&sample.key(alloc)?, name)?;
    Ok(String::from_str(alloc, "tagged")?)
}

fn fetch<A: Source>(alloc: Global, layout: &A, sample: Sample) -> Result<String, Fail> {
    match layout.fetch(&sample.key(alloc)?) {
        Ok(bytes) => utf8(alloc, bytes.as_slice()),
        Err(fault) => Ok(format!(in alloc; "{fault}")?),
    }
}

fn resolve<T: Tagger>(alloc: Global, layout: &T, reference: &str) -> Result<String, Fail> {
    match layout.resolve(expanded(alloc, reference)?.as_str()) {
        Ok(key) => Ok(format!(in alloc; "{key}")?),
        Err(fault) => Ok(format!(in alloc; "{fault}")?),
    }
}

/// Returns the keys, each followed by `;`.
pub(crate) fn listed(alloc: Global, keys: &[Key]) -> Result<String, Fail> {
    let mut told = String::new(alloc);
    for key in keys {
        told.push_str(format!(in alloc; "{key};")?.as_str())?;
    }
    Ok(told)
}

fn links<A: GraphSource>(alloc: Global, layout: &A, key: &Key) -> Result<String, Fail> {
    let above = listed(alloc, &layout.predecessors(key)?)?;
    match layout.successors(key)? {
        Some(keys) => joined(alloc, &listed(alloc, &keys)?, &above),
        None => joined(alloc, "not held", &above),
    }
}

fn joined(alloc: Global, first: &str, second: &str) -> Result<String, Fail> {
    Ok(format!(in alloc; "{first}/{second}")?)
}

fn check<D: Dir>(
    alloc: Global,
    layout: &Layout<D>,
    sample: Sample,
    media_type: &str,
) -> Result<String, Fail> {
    let key = sample.content(alloc)?.key_as(alloc, media_type)?;
    done_or_fault(alloc, layout.check_file(&key), "good")
}

fn unreadable<D: Dir>(alloc: Global, layout: &Layout<D>) -> Result<String, Fail> {
    let mut told = String::new(alloc);
    for place in &layout.unreadable()? {
        told.push_str(format!(in alloc; "{place};")?.as_str())?;
    }
    Ok(told)
}

fn renamed<D: Dir>(
    alloc: Global,
    layout: &Layout<D>,
    place: usize,
    name: Option<&str>,
) -> Result<String, Fail> {
    let Some(entry) = layout.entries().get(place) else {
        return Ok(String::from_str(alloc, "no entry")?);
    };
    let entry = match name {
        Some(name) => entry.with_name(alloc, name)?,
        None => entry.without_name(alloc)?,
    };
    utf8(alloc, &entry.value.to_vec(alloc)?)
}

/// Opens a layout with this index as it is.
fn with_index(alloc: Global, index: &str) -> Result<Layout<MemDir>, Fail> {
    let mut dir = MemDir::new(alloc);
    dir.put("oci-layout", b"{\"imageLayoutVersion\":\"1.0.0\"}")?;
    dir.put("index.json", expanded(alloc, index)?.as_bytes())?;
    made(Layout::open_as_is(alloc, dir))
}

fn bring<D: Dir>(alloc: Global, layout: &mut Layout<D>, index: &str) -> Result<String, Fail> {
    layout.bring(with_index(alloc, index)?.entries())?;
    Ok(String::from_str(alloc, "brought")?)
}

fn forget<D: Dir>(alloc: Global, layout: &mut Layout<D>, index: &str) -> Result<String, Fail> {
    layout.forget(with_index(alloc, index)?.entries())?;
    Ok(String::from_str(alloc, "forgotten")?)
}

fn forget_names<D: Dir>(alloc: Global, layout: &mut Layout<D>) -> Result<String, Fail> {
    layout.forget_names()?;
    Ok(String::from_str(alloc, "forgotten")?)
}

fn take_index_and_put<D: Dir>(alloc: Global, layout: &mut Layout<D>) -> Result<String, Fail> {
    let index = layout.take_index();
    let told = format!(in alloc; "{}", layout.entries().len())?;
    layout.put_index(index);
    Ok(told)
}
