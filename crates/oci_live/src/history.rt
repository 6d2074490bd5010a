//! The history of a live store: its entries in order of publication.
//!
//! It is ghost state behind one word, its length. A `Witness` shows a list that the history has
//! reached. It has no bytes, and can be copied and passed on. Of the lists of two witnesses of one
//! history, one is a prefix of the other.
ghost use Rattle.std.specs.Prelude.{◌≡◌, ◌++◌, ◌∷◌, [], length, IfOk, OnOk};
ghost use Rattle.oci_live.specs.History.{head_of};

use bytes::Bytes;
use logbook::{Gain, Offer, Plain, Play, Rule, Seen, Start, Word};
use oci_digest::NoMemory;
use oci_manifest::Key;

/// An entry in the proofs. Contracts read an array as a list of any length.
pub(crate) type LogEntry = (Key, [u8; 0]);

/// The word is the length of the history.
pub(crate) struct Counted;

impl Rule<LogEntry, u64> for Counted {
    ghost use Rattle.std.specs.Prelude.{[]};
    ghost use base.Fml.{ftrue};
    ghost use Rattle.oci_live.specs.History.{IsCounted};

    ghost holds = { λ cells log. IsCounted cells log };

    ghost first = { [] };

    ghost hinted = { λ n log. Unit {0} };

    ghost shows = { λ log. [] };

    ghost keeps = { λ names log. ftrue };

    ghost moves = { λ ask before after answer. Unit {0} };
}

/// Appending grants the writer no extra knowledge.
struct NoGain;

impl Gain<LogEntry, u64> for NoGain {
    ghost use base.Fml.{ftrue};

    ghost after = { λ names about answer. ftrue };
}

/// An entry to be appended.
#[derive(Drop)]
struct Addition<'e> {
    key: &'e Key,
    bytes: &'e Bytes,
}

/// Appends one entry.
struct Append;

impl Play<LogEntry, u64> for Append {
    ghost use Rattle.oci_live.specs.History.{Appends};

    ghost then = { Appends };
}

impl<'e> Plain<Addition<'e>, LogEntry, u64> for Append {
    ghost use Rattle.std.specs.Prelude.{None};

    ghost ask = { λ a. (a.key.now, a.bytes.now) };

    ghost state = { λ a. None };
}

/// Evidence that a history has reached a list.
pub(crate) type Witness = Seen<LogEntry, u64, Counted>;

/// The writer's handle of a history.
#[derive(Drop)]
pub(crate) struct History {
    head: Word<LogEntry, u64, Counted>,
    pub(crate) front: Witness,
    len: u64,
    ghost head_is: { head ≡ head_of front.book },
    ghost len_is: { len ≡ length front.log },
}

impl History {
    /// Creates a history without entries.
    pub(crate) fn new() -> History
        ensures { result.front.log ≡ [] }
    {
        let (front, mut first, _second) = Seen::open(Start::alone(), 0, 0);
        History {
            head: Word::tracked(0, &mut first),
            front,
            len: 0,
        }
    }

    /// Appends an entry, and returns a witness of the new history. Does not allocate.
    ///
    /// Fails if the length is at its greatest value, or if another writer has appended an entry.
    /// There is no other writer.
    pub(crate) fn append(&mut self, key: &Key, bytes: &Bytes) -> Result<Witness, NoMemory>
        ensures book { self.new.front.book ≡ self.old.front.book }
        ensures appended { OnOk result (self.new.front.log ≡ self.old.front.log ++ (
          key.now,
          bytes.now,
        ) ∷ []) }
        ensures witness { IfOk result (λ witness. witness ≡ self.new.front) }
    {
        if self.len == u64::MAX {
            return Err(NoMemory);
        }
        let addition = Addition { key, bytes };
        let mut offer: Offer<LogEntry, u64, Counted, NoGain> = self
            .front
            .plain::<NoGain, Addition, Append>(&addition);
        let mut pen = self.front.no_pen();
        let len = self.len;
        let found = self
            .head
            .compare_exchange::<Append, NoGain>(
                len,
                len + 1,
                &mut self.front,
                &mut offer,
                &mut pen,
            );
        if found != len {
            self.len = found;
            return Err(NoMemory);
        }
        self.len = len + 1;
        Ok(self.front.again())
    }
}
