//! The questions that a look can ask about the published entries.
ghost use Rattle.std.specs.Prelude.{List};
ghost use Rattle.oci_store.specs.Content.{Entry};

use crate::fault::LookFault;
use bytes::Bytes;
use oci_manifest::Key;
use oci_store::Entries;

/// A question about a list of entries.
pub(crate) trait Question {
    type Answer: Drop;

    /// The correct answers.
    ghost answers: { Self → List Entry → Self.Answer → Type 0 };

    fn ask(&self, entries: &Entries) -> Self::Answer
        ensures { answers self.now entries.now result };
}

/// The number of entries.
pub(crate) struct Count;

impl Question for Count {
    ghost use Rattle.std.specs.Prelude.{◌≡◌, length};
    ghost use Rattle.oci_store.specs.Content.{IsContent};

    type Answer = usize;

    ghost answers = { λ q entries n. (n ≡ length entries) × IsContent entries };

    fn ask(&self, entries: &Entries) -> usize {
        entries.len()
    }
}

/// Whether a key is held.
#[derive(Drop)]
pub(crate) struct Held<'k> {
    pub(crate) key: &'k Key,
}

impl<'k> Question for Held<'k> {
    ghost use Rattle.std.specs.Prelude.{◌≡◌};
    ghost use Rattle.oci_store.specs.Keyed.{has_key};

    type Answer = bool;

    ghost answers = { λ q entries held. held ≡ has_key entries q.key.now };

    fn ask(&self, entries: &Entries) -> bool {
        entries.content(self.key).is_some()
    }
}

/// The bytes under a key.
#[derive(Drop)]
pub(crate) struct ContentAt<'k> {
    pub(crate) key: &'k Key,
}

impl<'k> Question for ContentAt<'k> {
    ghost use Rattle.oci_live.specs.Answers.{IsContentAt};

    type Answer = Result<Bytes, LookFault>;

    ghost answers = { λ q entries found. IsContentAt entries q.key.now found };

    fn ask(&self, entries: &Entries) -> Result<Bytes, LookFault> {
        match entries.content(self.key) {
            Some(bytes) => match bytes.clone() {
                Ok(bytes) => Ok(bytes),
                Err(_) => Err(LookFault::Memory),
            },
            None => Err(LookFault::NotFound),
        }
    }
}

/// The entry at a place.
#[derive(Drop)]
pub(crate) struct EntryAt {
    pub(crate) place: usize,
}

impl Question for EntryAt {
    ghost use Rattle.oci_live.specs.Answers.{IsEntryAt};

    type Answer = Result<Option<(Key, Bytes)>, LookFault>;

    ghost answers = { λ q entries found. IsEntryAt entries q.place found };

    fn ask(&self, entries: &Entries) -> Result<Option<(Key, Bytes)>, LookFault> {
        let Some((key, bytes)) = entries.entry(self.place) else {
            return Ok(None);
        };
        let Ok(key) = key.try_clone() else {
            return Err(LookFault::Memory);
        };
        match bytes.clone() {
            Ok(bytes) => Ok(Some((key, bytes))),
            Err(_) => Err(LookFault::Memory),
        }
    }
}
