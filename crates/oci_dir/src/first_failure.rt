use once_cell::race::OnceBox;
use std::alloc::Global;
use std::io;

/// A call of the system that failed.
#[derive(Drop)]
pub struct Failure {
    /// The path of the file or folder at which it failed. For a new file that would replace
    /// another, it is the path of that one.
    pub path: String,
    /// The error of the system.
    pub error: io::Error,
}

/// The first call of the system that failed in a folder, for a person who reads a fault: a fault
/// says neither the path nor the reason.
///
/// Threads that share a folder may note their failures at the same time. None of them waits.
#[derive(Drop)]
pub struct FirstFailure {
    alloc: Global,
    noted: OnceBox<Failure>,
}

impl FirstFailure {
    /// Returns the value in which no failure is noted.
    pub fn new(alloc: Global) -> FirstFailure {
        FirstFailure {
            alloc,
            noted: OnceBox::new(alloc),
        }
    }

    /// Returns the first failure that was noted.
    pub fn get(&self) -> Option<&Failure> {
        self.noted.get()
    }

    /// Notes a failure at a path, unless one is noted already. If memory runs out, nothing is
    /// noted.
    pub fn note(&self, path: &str, error: io::Error) {
        if self.get().is_some() {
            return;
        }
        let Ok(path) = String::from_str(self.alloc, path) else {
            return;
        };
        if let Ok(failure) = Box::new(self.alloc, Failure { path, error }) {
            let _ = self.noted.set(failure);
        }
    }
}
