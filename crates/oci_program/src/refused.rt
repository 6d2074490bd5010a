ghost use Rattle.std.specs.Prelude.{◌≡◌, ◌++◌, ◌∷◌, [], List, ℕ, None, OnOk};
ghost use Rattle.std.specs.List.{last_or};
ghost use Rattle.std.specs.Option.{option_to_list};
ghost use Rattle.oci_archive.specs.Numbers.{archive_number};
ghost use Rattle.oci_manifest.specs.Fault.{key_number_of, number_of as manifest_number};
ghost use Rattle.oci_store.specs.Numbers.{fetch_number, reference_number};
ghost use Rattle.oci_program.specs.Status.{
  copy_numbers,
  entry_numbers,
  last_number,
  layout_numbers,
  numbers,
  plan_numbers,
  program_number,
  prune_numbers,
  push_numbers,
};

use crate::fault::ProgramFault;
use crate::refusal_document::{Carried, Entry, add_entry};
use oci_archive::ArchiveFault;
use oci_copy::CopyFault;
use oci_digest::NoMemory;
use oci_layout_store::LayoutFault;
use oci_manifest::{KeyFault, ManifestFault};
use oci_plan::PlanFault;
use oci_prune_fault::PruneFault;
use oci_store::{FetchFault, PushFault, RefFault};
use std::alloc::Global;

/// A fault that the text of a refusal names. It may have another fault inside.
///
/// The libraries do not know the program's documents, so the trait is implemented here for each
/// type of fault.
pub(crate) trait Refused {
    /// The numbers in the fault's text: its own, and then those of the fault inside it.
    ghost numbers: { Self → List ℕ };

    /// Returns the last of the numbers, which is that of the innermost fault.
    fn last_number(&self) -> Option<u8>
        ensures { result ≡ last_or None (numbers self.now) };

    /// Adds the entry of the fault, with the values that it carries, and then those of the fault
    /// inside it.
    fn add_to<'f>(&'f self, alloc: Global, entries: &mut Vec<Entry<'f>>) -> Result<(), NoMemory>
        ensures { OnOk result (entry_numbers entries.new.items
            ≡ entry_numbers entries.old.items ++ numbers self.now) };
}

impl ProgramFault {
    /// Returns the last number of the fault's text, which is that of its innermost fault.
    pub fn last_number(&self) -> Option<u8>
        ensures { result ≡ last_number self.now }
    {
        match self {
            ProgramFault::Archive(inner) => inner.last_number(),
            ProgramFault::Key(inner) => inner.last_number(),
            ProgramFault::Push(inner) => inner.last_number(),
            ProgramFault::Copy(inner) => inner.last_number(),
            ProgramFault::Layout(inner) => inner.last_number(),
            ProgramFault::Destination(inner) => inner.last_number(),
            ProgramFault::Prune(inner) => inner.last_number(),
            ProgramFault::Source(inner) => inner.last_number(),
            ProgramFault::Reference(inner) => inner.last_number(),
            ProgramFault::Fetch(inner) => inner.last_number(),
            _ => self.number(),
        }
    }

    /// Adds the entries of the faults in the text of this one.
    pub(crate) fn add_to<'f>(
        &'f self,
        alloc: Global,
        entries: &mut Vec<Entry<'f>>,
    ) -> Result<(), NoMemory>
        ensures { OnOk result (entry_numbers entries.new.items
            ≡ entry_numbers entries.old.items ++ numbers self.now) }
    {
        match self {
            ProgramFault::Archive(inner) => inner.add_to(alloc, entries),
            ProgramFault::Key(inner) => inner.add_to(alloc, entries),
            ProgramFault::Push(inner) => inner.add_to(alloc, entries),
            ProgramFault::Copy(inner) => inner.add_to(alloc, entries),
            ProgramFault::Layout(inner) => inner.add_to(alloc, entries),
            ProgramFault::Destination(inner) => inner.add_to(alloc, entries),
            ProgramFault::Prune(inner) => inner.add_to(alloc, entries),
            ProgramFault::Source(inner) => inner.add_to(alloc, entries),
            ProgramFault::Reference(inner) => inner.add_to(alloc, entries),
            ProgramFault::Fetch(inner) => inner.add_to(alloc, entries),
            _ => self.add_own(alloc, entries),
        }
    }

    /// Adds the entry of a fault of the program's own. Its memory error has none.
    fn add_own<'f>(&'f self, alloc: Global, entries: &mut Vec<Entry<'f>>) -> Result<(), NoMemory>
        ensures { OnOk result (entry_numbers entries.new.items
            ≡ entry_numbers entries.old.items ++ option_to_list (program_number self.now)) }
    {
        let carried = match self {
            ProgramFault::BadItem(item) => Carried::Item { item },
            ProgramFault::File(path) => Carried::Path { path },
            ProgramFault::NotWritable(path) => Carried::Path { path },
            ProgramFault::Locked(path) => Carried::Path { path },
            ProgramFault::NoPlatform(platform, platforms) => Carried::Platforms {
                platform,
                platforms,
            },
            _ => Carried::Nothing,
        };
        match self.number() {
            Some(number) => add_entry(alloc, number, self, carried, entries),
            None => Ok(()),
        }
    }
}

impl Refused for ArchiveFault {
    ghost numbers = { λ fault. archive_number fault ∷ [] };

    fn last_number(&self) -> Option<u8> {
        Some(self.number())
    }

    fn add_to<'f>(&'f self, alloc: Global, entries: &mut Vec<Entry<'f>>) -> Result<(), NoMemory> {
        let carried = match *self {
            ArchiveFault::Compressed(form) => Carried::Form { form },
            ArchiveFault::BadHeader(offset) => Carried::Offset { offset },
            ArchiveFault::Truncated(offset) => Carried::Offset { offset },
            ArchiveFault::TooLong(offset) => Carried::Offset { offset },
            _ => Carried::Nothing,
        };
        add_entry(alloc, self.number(), self, carried, entries)
    }
}

impl Refused for KeyFault {
    ghost numbers = { λ fault. key_number_of fault ∷ [] };

    fn last_number(&self) -> Option<u8> {
        Some(self.number())
    }

    fn add_to<'f>(&'f self, alloc: Global, entries: &mut Vec<Entry<'f>>) -> Result<(), NoMemory> {
        add_entry(alloc, self.number(), self, Carried::Nothing, entries)
    }
}

impl Refused for ManifestFault {
    ghost numbers = { λ fault. manifest_number fault ∷ [] };

    fn last_number(&self) -> Option<u8> {
        Some(self.number())
    }

    fn add_to<'f>(&'f self, alloc: Global, entries: &mut Vec<Entry<'f>>) -> Result<(), NoMemory> {
        let carried = match *self {
            ManifestFault::BadList(member) => Carried::Member { member },
            ManifestFault::BadDescriptor(member, position) => Carried::Position {
                member,
                position,
            },
            _ => Carried::Nothing,
        };
        add_entry(alloc, self.number(), self, carried, entries)
    }
}

impl Refused for FetchFault {
    ghost numbers = { λ fault. fetch_number fault ∷ [] };

    fn last_number(&self) -> Option<u8> {
        Some(self.number())
    }

    fn add_to<'f>(&'f self, alloc: Global, entries: &mut Vec<Entry<'f>>) -> Result<(), NoMemory> {
        add_entry(alloc, self.number(), self, Carried::Nothing, entries)
    }
}

impl Refused for RefFault {
    ghost numbers = { λ fault. reference_number fault ∷ [] };

    fn last_number(&self) -> Option<u8> {
        Some(self.number())
    }

    fn add_to<'f>(&'f self, alloc: Global, entries: &mut Vec<Entry<'f>>) -> Result<(), NoMemory> {
        add_entry(alloc, self.number(), self, Carried::Nothing, entries)
    }
}

impl Refused for PushFault {
    ghost numbers = { push_numbers };

    fn last_number(&self) -> Option<u8> {
        match self {
            PushFault::BadManifest(inner) => inner.last_number(),
            _ => Some(self.number()),
        }
    }

    fn add_to<'f>(&'f self, alloc: Global, entries: &mut Vec<Entry<'f>>) -> Result<(), NoMemory> {
        let carried = match self {
            PushFault::MissingSuccessor(descriptor) => Carried::Descriptor { descriptor },
            _ => Carried::Nothing,
        };
        add_entry(alloc, self.number(), self, carried, entries)?;
        match self {
            PushFault::BadManifest(inner) => inner.add_to(alloc, entries),
            _ => Ok(()),
        }
    }
}

impl Refused for PlanFault {
    ghost numbers = { plan_numbers };

    fn last_number(&self) -> Option<u8> {
        match self {
            PlanFault::Manifest(_, inner) => inner.last_number(),
            PlanFault::Fetch(_, inner) => inner.last_number(),
            _ => Some(self.number()),
        }
    }

    fn add_to<'f>(&'f self, alloc: Global, entries: &mut Vec<Entry<'f>>) -> Result<(), NoMemory> {
        let carried = match self {
            PlanFault::NotFound(descriptor) => Carried::Descriptor { descriptor },
            PlanFault::TooLarge(descriptor, limit) => Carried::TooLarge {
                descriptor,
                limit: *limit,
            },
            PlanFault::Cycle(descriptors) => Carried::Descriptors { descriptors },
            PlanFault::Manifest(descriptor, _) => Carried::Descriptor { descriptor },
            PlanFault::Fetch(descriptor, _) => Carried::Descriptor { descriptor },
            _ => Carried::Nothing,
        };
        add_entry(alloc, self.number(), self, carried, entries)?;
        match self {
            PlanFault::Manifest(_, inner) => inner.add_to(alloc, entries),
            PlanFault::Fetch(_, inner) => inner.add_to(alloc, entries),
            _ => Ok(()),
        }
    }
}

impl Refused for LayoutFault {
    ghost numbers = { layout_numbers };

    fn last_number(&self) -> Option<u8> {
        match self {
            LayoutFault::BadIndex(inner) => inner.last_number(),
            LayoutFault::BadManifest(_, inner) => inner.last_number(),
            _ => Some(self.number()),
        }
    }

    fn add_to<'f>(&'f self, alloc: Global, entries: &mut Vec<Entry<'f>>) -> Result<(), NoMemory> {
        let carried = match self {
            LayoutFault::Corrupt(descriptor) => Carried::Descriptor { descriptor },
            LayoutFault::BadManifest(descriptor, _) => Carried::Descriptor { descriptor },
            _ => Carried::Nothing,
        };
        add_entry(alloc, self.number(), self, carried, entries)?;
        match self {
            LayoutFault::BadIndex(inner) => inner.add_to(alloc, entries),
            LayoutFault::BadManifest(_, inner) => inner.add_to(alloc, entries),
            _ => Ok(()),
        }
    }
}

impl Refused for CopyFault {
    ghost numbers = { copy_numbers };

    fn last_number(&self) -> Option<u8> {
        match self {
            CopyFault::Plan(inner) => inner.last_number(),
            CopyFault::Push(_, inner) => inner.last_number(),
            CopyFault::Reference(inner) => inner.last_number(),
            CopyFault::Fetch(_, inner) => inner.last_number(),
            _ => Some(self.number()),
        }
    }

    fn add_to<'f>(&'f self, alloc: Global, entries: &mut Vec<Entry<'f>>) -> Result<(), NoMemory> {
        let carried = match self {
            CopyFault::DestinationOpen(holder, missing) => Carried::Missing { holder, missing },
            CopyFault::Push(descriptor, _) => Carried::Descriptor { descriptor },
            CopyFault::Stuck(descriptor) => Carried::Descriptor { descriptor },
            CopyFault::Incomplete(descriptor) => Carried::Descriptor { descriptor },
            CopyFault::Fetch(descriptor, _) => Carried::Descriptor { descriptor },
            _ => Carried::Nothing,
        };
        add_entry(alloc, self.number(), self, carried, entries)?;
        match self {
            CopyFault::Plan(inner) => inner.add_to(alloc, entries),
            CopyFault::Push(_, inner) => inner.add_to(alloc, entries),
            CopyFault::Reference(inner) => inner.add_to(alloc, entries),
            CopyFault::Fetch(_, inner) => inner.add_to(alloc, entries),
            _ => Ok(()),
        }
    }
}

impl Refused for PruneFault {
    ghost numbers = { prune_numbers };

    fn last_number(&self) -> Option<u8> {
        match self {
            PruneFault::Layout(inner) => inner.last_number(),
            PruneFault::Fetch(_, inner) => inner.last_number(),
            _ => Some(self.number()),
        }
    }

    /// Adds the entry of the fault and those of the fault inside it. A refused layout has only the
    /// entries of the layout's fault.
    fn add_to<'f>(&'f self, alloc: Global, entries: &mut Vec<Entry<'f>>) -> Result<(), NoMemory> {
        let carried = match self {
            PruneFault::Layout(inner) => return inner.add_to(alloc, entries),
            PruneFault::NotRemoved(path) => Carried::Path { path },
            PruneFault::LinkedBlobs(path) => Carried::Path { path },
            PruneFault::Fetch(descriptor, _) => Carried::Descriptor { descriptor },
            PruneFault::Unknown(descriptor) => Carried::Descriptor { descriptor },
            _ => Carried::Nothing,
        };
        add_entry(alloc, self.number(), self, carried, entries)?;
        match self {
            PruneFault::Fetch(_, inner) => inner.add_to(alloc, entries),
            _ => Ok(()),
        }
    }
}
