ghost use Rattle.std.specs.Prelude.{◌≡◌, true, false};
ghost use Rattle.oci_store.specs.Closed.{IsClosed};
ghost use Rattle.oci_store.specs.Graph.{nodes_of};
ghost use Rattle.oci_live.specs.History.{name_of};
ghost use Rattle.oci_live.specs.Live.{IsClosedList, Learns, MovesOn};

use crate::history::Witness;
use std::marker::Model;

/// The published entries of a live store at one moment: the store's name and its list of entries. A
/// note holds no contents. A [`Look`](crate::Look) can learn the list from it.
#[derive(Drop)]
pub struct Note {
    witness: Witness,
    len: u64,
}

impl Model for Note {
    ghost use Rattle.oci_live.specs.History.{name_of};
    ghost use Rattle.oci_live.specs.Live.{Beginning, IsClosedList};

    ghost Value = { Beginning };

    ghost view = { λ n. record { name = name_of n.witness.book; entries = n.witness.log } };

    ghost invariant = { λ n. IsClosedList n.witness.log n.len };
}

impl Note {
    /// Creates a note of the list that a witness shows.
    pub(crate) fn new(witness: Witness, len: u64) -> Note
        requires { IsClosedList witness.log len }
        ensures { result ≡ record { name = name_of witness.book; entries = witness.log } }
    {
        Note { witness, len }
    }

    /// Brings into the proof that the list is closed.
    pub(crate) fn is_of_closed_list(&self)
        ensures { IsClosed (nodes_of self.now.entries) }
    {
        // Reading a field brings the note's invariant into the proof.
        let _ = &self.len;
    }

    /// Moves on to the list of a witness. Returns `false` and changes nothing if that list is
    /// shorter.
    pub(crate) fn advance(&mut self, witness: Witness, len: u64) -> bool
        requires name { name_of witness.book ≡ self.old.name }
        requires list { IsClosedList witness.log len }
        ensures later { MovesOn self.old self.new }
        ensures shown { result ≡ true → self.new.entries ≡ witness.log }
        ensures less { result ≡ false → self.new.entries ≡ self.old.entries }
    {
        let now = Note { witness, len };
        if len < self.len {
            return false;
        }
        self.learn(&now);
        true
    }

    /// Takes the longer of the two lists. Of two lists of one history, one is a prefix of the
    /// other.
    pub(crate) fn learn(&mut self, note: &Note)
        requires name { self.old.name ≡ note.now.name }
        ensures { Learns self.old note.now self.new }
    {
        // This witness has seen both lists, so both are prefixes of its list.
        let mut both = self.witness.again();
        both.learn(&note.witness);
        if self.len < note.len {
            self.witness = note.witness.again();
            self.len = note.len;
        }
    }
}
