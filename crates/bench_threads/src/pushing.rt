use bytes::Bytes;
use oci_digest::Digest;
use oci_manifest::Key;
use oci_store::Dest;
use std::alloc::{AllocError, Global};
use std::fmt;

/// A content and its key.
#[derive(Drop)]
pub(crate) struct Content {
    pub key: Key,
    pub bytes: Bytes,
}

/// Returns `count` distinct small contents.
pub(crate) fn contents(alloc: Global, count: u64) -> Result<Vec<Content>, AllocError> {
    let mut contents = Vec::new(alloc);
    for number in 0..count {
        contents.push(numbered(alloc, number)?)?;
    }
    Ok(contents)
}

/// Returns a content of eight bytes.
fn numbered(alloc: Global, number: u64) -> Result<Content, AllocError> {
    let bytes = Bytes::copy_from_slice(alloc, &number.to_le_bytes())?;
    let media_type = String::from_str(alloc, "text/plain")?;
    let Ok(key) = Key::new(media_type, Digest::of(bytes.as_slice()), 8) else {
        return Err(AllocError);
    };
    Ok(Content { key, bytes })
}

/// The results of some pushes.
#[derive(Drop, Default)]
pub(crate) struct Tally {
    came: u64,
    held: usize,
    answers: u64,
}

impl Tally {
    /// Counts a success.
    pub fn came(&mut self) {
        self.came = self.came.wrapping_add(1);
    }

    /// Returns the tally with this number of entries.
    pub fn held(self, held: usize) -> Tally {
        Tally { held, ..self }
    }

    /// Returns the tally with this number of successful looks.
    pub fn answered(self, answers: u64) -> Tally {
        Tally { answers, ..self }
    }
}

impl fmt::Display for Tally {
    fn fmt<W: fmt::Write>(&self, f: &mut fmt::Formatter<W>) -> fmt::Result {
        let (came, held, answers) = (self.came, self.held, self.answers);
        write!(f, "came {came} held {held} answers {answers}")
    }
}

/// Pushes all contents.
pub(crate) fn push_all<D: Dest>(store: &mut D, contents: Vec<Content>) -> Tally {
    let mut tally = Tally::default();
    for Content { key, bytes } in contents {
        if store.push_closed(&key, bytes).is_ok() {
            tally.came();
        }
    }
    tally
}
