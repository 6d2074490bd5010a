use std::alloc::Global;

/// The algorithm of a digest.
#[derive(Clone, Copy)]
pub enum Algorithm {
    Sha256,
    Sha512,
}

/// The words of `mem`.
#[derive(Drop)]
pub struct MemWords<'w> {
    /// The items, at least one.
    pub items: Vec<&'w str>,
    /// The number of workers. `None`: the calling thread copies.
    pub workers: Option<u32>,
    /// The algorithm of the items' digests.
    pub algorithm: Algorithm,
}

impl<'w> MemWords<'w> {
    /// Creates the words of a `mem` without items.
    pub(crate) fn none(alloc: Global) -> MemWords<'w> {
        MemWords {
            items: Vec::new(alloc),
            workers: None,
            algorithm: Algorithm::Sha256,
        }
    }
}
