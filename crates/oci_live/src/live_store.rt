ghost use Rattle.std.specs.Prelude.{◌≡◌, ◌++◌, ◌∷◌, [], true, false, IfOk, OnOk, IfErr, OnErr};
ghost use Rattle.oci_store.specs.Closed.{IsClosed};
ghost use Rattle.oci_store.specs.Graph.{nodes_of};
ghost use Rattle.oci_live.specs.declared.fault.LookFault.TheVariants.{Unavailable};

mod dest;

use crate::fault::{LiveFault, LookFault};
use crate::history::History;
use crate::look::Look;
use crate::note::Note;
use crate::opening::opened;
use crate::publishing::publish;
use crate::reading::viewer_of;
use crate::rule::Publisher;
use crate::shelf::{Item, Shelf};
use oci_digest::NoMemory;
use oci_store::{CheckedContent, ClosedStore};
use std::alloc::Global;
use std::marker::Model;
use std::sync::Wait;

/// A store that is read while it grows. It is closed, and holds exactly its published entries. Each
/// push is one publication, which looks on any thread see at once. Tests show this; it is not
/// proved.
///
/// It is a destination of copies ([`oci_store::Dest`]). If a publication runs out of memory, the
/// store halts: it keeps its published entries, can still be read, and accepts no more content.
pub struct LiveStore<R: Wait + Drop> {
    rt: R,
    publisher: Publisher,
    history: History,
    is_halted: bool,
}

impl<R: Wait + Drop> Model for LiveStore<R> {
    ghost use Rattle.std.specs.Prelude.{drop};
    ghost use Rattle.left_right.specs.Sides.{view as seat_view};
    ghost use Rattle.oci_live.specs.History.{name_of};
    ghost use Rattle.oci_live.specs.Kept.{IsLive};
    ghost use Rattle.oci_live.specs.Live.{Live};

    ghost Value = { Live };

    ghost view = { λ s. record {
      name = name_of s.publisher.desk.shown.value.witness.book;
      entries = s.publisher.desk.shown.value.entries;
      is_halted = s.is_halted;
    } };

    ghost invariant = { λ s. IsLive (seat_view s.publisher.desk.place) s.publisher.desk.shown.value
        s.history.front.book s.history.front.log (drop s.publisher.behind s.publisher.log.items)
        s.is_halted };
}

impl<R: Wait + Drop> Drop for LiveStore<R> {
    fn drop(self) {
        let LiveStore {
            rt,
            publisher,
            history: _history,
            is_halted: _,
        } = self;
        publisher.take(&rt);
    }
}

impl<R: Wait + Drop> LiveStore<R> {
    /// Opens a closed store for looks. Its entries are published, its tags are dropped.
    ///
    /// # Errors
    ///
    /// - 48 `Memory`: an allocation failed. The unchanged closed store is returned with the error.
    pub fn open(
        rt: R,
        alloc: Global,
        store: ClosedStore,
    ) -> Result<LiveStore<R>, (ClosedStore, LiveFault)>
        ensures entries { IfOk result (λ live. live.entries ≡ store.entries) }
        ensures running { IfOk result (λ live. live.is_halted ≡ false) }
        ensures back { IfErr result (λ refused. refused.0 ≡ store) }
    {
        match opened(&rt, alloc, store.entries()) {
            Ok((publisher, history)) => Ok(LiveStore {
                rt,
                publisher,
                history,
                is_halted: false,
            }),
            Err(_) => Err((store, LiveFault::Memory)),
        }
    }

    /// Creates a look at the entries that are published now. It may move to another thread.
    ///
    /// # Errors
    ///
    /// - 46 `Unavailable`: each of the 64 places for looks is taken. A dropped look frees its
    ///   place.
    ///
    /// It is not proved that a look is returned while a place is free.
    pub fn look(&mut self) -> Result<Look, LookFault>
        ensures name { IfOk result (λ look. look.name ≡ self.old.name) }
        ensures entries { IfOk result (λ look. look.entries ≡ self.old.entries) }
        ensures refused { IfErr result (λ fault. fault ≡ Unavailable) }
        ensures same { self.new ≡ self.old }
    {
        let note = self.note();
        match viewer_of(&mut self.publisher) {
            Ok(viewer) => Ok(Look::new(viewer, note)),
            Err(_) => Err(LookFault::Unavailable),
        }
    }

    /// Returns a note of the entries that are published now. Does not allocate.
    pub fn note(&self) -> Note
        ensures name { result.name ≡ self.now.name }
        ensures entries { result.entries ≡ self.now.entries }
    {
        let shelf = self.publisher.published();
        Note::new(shelf.witness.again(), shelf.entries.len() as u64)
    }

    /// Returns a closed store with the published entries, without tags. The contents are shared,
    /// not copied.
    ///
    /// # Errors
    ///
    /// Returns [`NoMemory`] if an allocation fails.
    pub fn copy_out(&self) -> Result<ClosedStore, NoMemory>
        ensures { IfOk result (λ closed. closed ≡ record
            { entries = self.now.entries; tags = [] }) }
    {
        Ok(ClosedStore::from_entries(self.shelf().entries.try_clone()?))
    }

    /// Publishes one entry. If this fails, the store halts.
    fn publish(&mut self, content: CheckedContent) -> Result<(), NoMemory>
        requires running { self.old.is_halted ≡ false }
        requires closed { IsClosed (nodes_of (self.old.entries ++ content ∷ [])) }
        ensures done { OnOk result (self.new ≡ record self.old
            { entries = self.old.entries ++ content ∷ [] }) }
        ensures refused { OnErr result (self.new ≡ record self.old { is_halted = true }) }
    {
        let LiveStore {
            rt,
            publisher,
            history,
            is_halted,
        } = self;
        *is_halted = true;
        let witness = history.append(content.key(), content.bytes())?;
        publish(publisher, rt, Item { content, witness })?;
        *is_halted = false;
        Ok(())
    }

    /// Returns the published entries.
    fn shelf(&self) -> &Shelf
        ensures entries { result.now.entries ≡ self.now.entries }
        ensures closed { IsClosed (nodes_of self.now.entries) }
    {
        self.publisher.published()
    }
}
