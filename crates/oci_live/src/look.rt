ghost use Rattle.std.specs.Prelude.{◌≡◌, length, MatchResult};
ghost use Rattle.left_right.specs.Sides.{view};
ghost use Rattle.oci_store.specs.Content.{IsContent};
ghost use Rattle.oci_store.specs.Keyed.{has_key};
ghost use Rattle.oci_live.specs.Answers.{IsAnswer, IsContentAt, IsEntryAt};
ghost use Rattle.oci_live.specs.Live.{Learns, MovesOn};
ghost use Rattle.oci_live.specs.Rule.{IsTold};
ghost use Rattle.oci_live.specs.declared.fault.LookFault.TheVariants.{Unavailable};

use crate::fault::LookFault;
use crate::note::Note;
use crate::question::{ContentAt, Count, EntryAt, Held, Question};
use crate::reading::ask;
use crate::rule::Viewer;
use bytes::Bytes;
use oci_manifest::Key;
use std::marker::Model;

/// The view of one thread on a live store: the store's name, and the longest prefix of its history
/// that this look has shown or learned.
///
/// Each result is exact for one prefix of the store's history. This prefix is closed, begins with
/// the look's list, and becomes the look's list. No call waits.
#[derive(Drop)]
pub struct Look {
    viewer: Viewer,
    note: Note,
}

impl Model for Look {
    ghost use Rattle.left_right.specs.Sides.{view as seat_view};
    ghost use Rattle.oci_live.specs.Live.{Beginning};
    ghost use Rattle.oci_live.specs.Rule.{IsTold};

    ghost Value = { Beginning };

    ghost view = { λ s. s.note };

    ghost invariant = { λ s. IsTold (seat_view s.viewer.place) s.note.name };
}

impl Look {
    pub(crate) fn new(viewer: Viewer, note: Note) -> Look
        requires { IsTold (view viewer.place) note.name }
        ensures { result ≡ note }
    {
        Look { viewer, note }
    }

    /// Learns the list of a note. One of the two lists is a prefix of the other, and the look keeps
    /// the longer. Does not allocate.
    pub fn learn(&mut self, note: &Note)
        requires name { self.old.name ≡ note.now.name }
        ensures { Learns self.old note.now self.new }
    {
        self.note.learn(note);
    }

    /// Returns whether the key is held. Does not allocate.
    ///
    /// # Errors
    ///
    /// - 46 `Unavailable`: the store is gone. The look is unchanged.
    pub fn exists(&mut self, key: &Key) -> Result<bool, LookFault>
        ensures later { MovesOn self.old self.new }
        ensures held { MatchResult result (λ held. held ≡ has_key self.new.entries key.now)
            (λ fault. (fault ≡ Unavailable) × (self.new ≡ self.old)) }
    {
        self.ask(&Held { key })
    }

    /// Returns the number of entries. Does not allocate.
    ///
    /// # Errors
    ///
    /// - 46 `Unavailable`: the store is gone. The look is unchanged.
    pub fn len(&mut self) -> Result<usize, LookFault>
        ensures later { MovesOn self.old self.new }
        ensures count { MatchResult result (λ n. (n ≡ length self.new.entries)
            × IsContent self.new.entries) (λ fault. (fault ≡ Unavailable) × (self.new ≡ self.old)) }
    {
        self.ask(&Count)
    }

    /// Returns the key and the content of the entry at a place, if there is one. The key is copied,
    /// the content is shared.
    ///
    /// # Errors
    ///
    /// - 46 `Unavailable`: the store is gone. The look is unchanged.
    /// - 47 `Memory`: there is an entry, and an allocation failed.
    pub fn entry(&mut self, place: usize) -> Result<Option<(Key, Bytes)>, LookFault>
        ensures later { MovesOn self.old self.new }
        ensures found { IsAnswer (self.new ≡ self.old) (IsEntryAt self.new.entries place) result }
    {
        self.ask(&EntryAt { place })?
    }

    /// Returns the bytes of a held key. They are shared, not copied.
    ///
    /// # Errors
    ///
    /// - 45 `NotFound`: the key is not held.
    /// - 46 `Unavailable`: the store is gone. The look is unchanged.
    /// - 47 `Memory`: the key is held, and an allocation failed.
    pub fn fetch(&mut self, key: &Key) -> Result<Bytes, LookFault>
        ensures later { MovesOn self.old self.new }
        ensures found { IsAnswer (self.new ≡ self.old) (IsContentAt self.new.entries key.now)
            result }
    {
        self.ask(&ContentAt { key })?
    }

    /// Asks a question. The list that the answer refers to becomes the look's list.
    fn ask<Q: Question>(&mut self, question: &Q) -> Result<Q::Answer, LookFault>
        ensures later { MovesOn self.old self.new }
        ensures answer { MatchResult result (λ answer. Q.answers question.now self.new.entries
            answer) (λ fault. (fault ≡ Unavailable) × (self.new ≡ self.old)) }
    {
        let Look { viewer, note } = self;
        let Some((answer, witness, len)) = ask(viewer, question) else {
            note.is_of_closed_list();
            return Err(LookFault::Unavailable);
        };
        if note.advance(witness, len as u64) {
            Ok(answer)
        } else {
            Err(LookFault::Unavailable)
        }
    }
}
