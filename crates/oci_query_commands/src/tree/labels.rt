use oci_digest::{Digest, NoMemory};
use oci_dir::Dir;
use oci_layout_store::Layout;
use oci_manifest::Key;
use oci_store::Dest;
use std::alloc::Global;
use std::collections::BTreeMap;

/// The least number of digits of a digest that are shown.
const LEAST_DIGITS: usize = 12;

/// The labels of the blobs of a layout: the beginnings of their digests, and their tags.
#[derive(Drop)]
pub(crate) struct Labels {
    /// The number of digits shown of each digest. The digests of the layout differ in them.
    digits: usize,
    /// The tags of each key that has one, in byte order.
    tags: BTreeMap<Key, Vec<String>>,
}

impl Labels {
    /// Returns the labels of a layout.
    pub(crate) fn of<D: Dir>(alloc: Global, layout: &Layout<D>) -> Result<Labels, NoMemory> {
        Ok(Labels {
            digits: distinct_digits(alloc, &sorted_digests(alloc, layout)?)?,
            tags: tags_by_key(alloc, layout)?,
        })
    }

    /// Returns the tags of a key, in byte order.
    pub(crate) fn tags(&self, key: &Key) -> &[String] {
        match self.tags.get(key) {
            Some(tags) => tags,
            None => &[],
        }
    }

    /// Returns the beginning of a key's digest: its algorithm, a colon, and as many digits as are
    /// shown.
    pub(crate) fn short_digest(&self, alloc: Global, key: &Key) -> Result<String, NoMemory> {
        let algorithm = key.digest().algorithm();
        let encoded = key.digest().encoded(alloc)?;
        let digits = self.digits;
        Ok(format!(in alloc; "{algorithm}:{encoded:.digits$}")?)
    }
}

/// The digests of a layout, in order.
fn sorted_digests<D: Dir>(alloc: Global, layout: &Layout<D>) -> Result<Vec<Digest>, NoMemory> {
    let mut digests = Vec::new(alloc);
    for place in 0..layout.count() {
        if let Some(key) = layout.key(place) {
            digests.push(*key.digest())?;
        }
    }
    digests.sort()?;
    Ok(digests)
}

/// The least number of digits, from `LEAST_DIGITS` on, in which sorted digests differ.
fn distinct_digits(alloc: Global, digests: &[Digest]) -> Result<usize, NoMemory> {
    let mut digits = LEAST_DIGITS;
    for pair in digests.windows(2) {
        if let [first, second] = pair {
            digits = digits.max(needed_digits(alloc, first, second)?);
        }
    }
    Ok(digits)
}

/// The least number of digits in which two digests differ. 0 if they are equal or have different
/// algorithms.
fn needed_digits(alloc: Global, first: &Digest, second: &Digest) -> Result<usize, NoMemory> {
    if first == second || first.algorithm() != second.algorithm() {
        return Ok(0);
    }
    let (first, second) = (first.encoded(alloc)?, second.encoded(alloc)?);
    let mut digits = 1usize;
    for (one, other) in first.bytes().zip(second.bytes()) {
        if one != other {
            break;
        }
        digits = digits.saturating_add(1);
    }
    Ok(digits)
}

/// The tags of each key that has one, in byte order.
fn tags_by_key<D: Dir>(
    alloc: Global,
    layout: &Layout<D>,
) -> Result<BTreeMap<Key, Vec<String>>, NoMemory> {
    let mut tags = BTreeMap::new(alloc);
    for (tag, key) in layout.tags()? {
        add_tag(alloc, &mut tags, key, tag)?;
    }
    Ok(tags)
}

/// Adds a tag to the tags of a key.
fn add_tag(
    alloc: Global,
    tags: &mut BTreeMap<Key, Vec<String>>,
    key: Key,
    tag: String,
) -> Result<(), NoMemory> {
    match tags.get_mut(&key) {
        Some(tags) => tags.push(tag)?,
        None => {
            tags.insert(key, vec![in alloc; tag]?)?;
        }
    }
    Ok(())
}
