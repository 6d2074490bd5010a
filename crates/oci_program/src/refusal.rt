use crate::fault::ProgramFault;
use crate::refused_path::{RefusedPath, Sides};
use std::alloc::Global;

/// A refusal as a person reads it: its most specific number, and its subject.
#[derive(Drop)]
pub struct Refusal<'w> {
    /// The last number of the fault's text.
    pub number: u8,
    /// What the refusal is about.
    pub subject: Subject<'w>,
}

/// What a refusal is about.
#[derive(Drop)]
pub enum Subject<'w> {
    /// The reference of the command line.
    Reference,
    /// A file or folder.
    Path(RefusedPath<'w>),
    /// Nothing that is known.
    Unknown,
}

impl ProgramFault {
    /// Returns the fault as a refusal. A memory error is none.
    pub(crate) fn refusal<'w>(&self, alloc: Global, sides: &Sides<'w>) -> Option<Refusal<'w>> {
        if self.is_memory() {
            return None;
        }
        match self.last_number() {
            Some(number) => Some(Refusal {
                number,
                subject: self.subject(alloc, sides),
            }),
            None => None,
        }
    }

    /// Returns what the fault is about. That is not known if memory runs out.
    fn subject<'w>(&self, alloc: Global, sides: &Sides<'w>) -> Subject<'w> {
        if matches!(
            self,
            ProgramFault::Reference(_) | ProgramFault::NoPlatform(_, _)
        ) {
            return Subject::Reference;
        }
        match self.refused_path(alloc, sides) {
            Ok(Some(path)) => Subject::Path(path),
            _ => Subject::Unknown,
        }
    }
}
