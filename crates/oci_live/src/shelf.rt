//! The two copies of the published entries: `left_right` keeps two shelves, and looks read one of
//! them.
ghost use Rattle.std.specs.Prelude.{◌≡◌, ◌++◌, ◌∷◌, [], MatchResult};

use crate::history::{LogEntry, Witness};
use left_right::Absorb;
use oci_digest::NoMemory;
use oci_store::{CheckedContent, Entries};
use std::alloc::AllocError;

/// A new entry, and a witness of the history that ends with it.
#[derive(Drop)]
pub(crate) struct Item {
    pub(crate) content: CheckedContent,
    pub(crate) witness: Witness,
}

/// One of the two copies of the published entries, and a witness of their history.
#[derive(Drop)]
pub(crate) struct Shelf {
    pub(crate) entries: Entries,
    pub(crate) witness: Witness,
}

/// The state that the two copies have in common. No value of this type is created.
pub(crate) struct Shared {
    pub(crate) list: [LogEntry; 0],
    pub(crate) log: [LogEntry; 0],
    pub(crate) name: [u64; 0],
}

impl Absorb<Item> for Shelf {
    ghost use Rattle.std.specs.Prelude.{◌++◌, ◌∷◌, []};
    ghost use Rattle.oci_live.specs.History.{name_of};

    type State = Shared;

    ghost state = { λ s. record {
      list = s.entries;
      log = s.witness.log;
      name = name_of s.witness.book;
    } };

    ghost applied = { λ x i. record {
      list = x.list ++ i.content ∷ [];
      log = i.witness.log;
      name = name_of i.witness.book;
    } };

    fn absorb_first(&mut self, item: &Item, _other: &Shelf) -> Result<(), AllocError> {
        add(&mut self.entries, &item.content).map_err(|_| AllocError)?;
        self.witness = item.witness.again();
        Ok(())
    }
}

/// Appends an entry. The key and the keys that it lists are copied, the bytes are shared. Nothing
/// is hashed or read.
///
/// Fails if the key is present. No publication has such a key, but the contract of `Absorb` does
/// not state that.
fn add(entries: &mut Entries, content: &CheckedContent) -> Result<(), NoMemory>
    ensures { MatchResult result (λ _. entries.new ≡ entries.old ++ content.now ∷ [])
        (λ _. entries.new ≡ entries.old) }
{
    if entries.graph().holds(content.key()) {
        return Err(NoMemory);
    }
    entries.push(content.try_clone()?)?;
    Ok(())
}
