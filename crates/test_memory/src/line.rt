//! The line that a run prints: the results of its steps, word by word.
use oci_copy::{CopyFault, Report};
use oci_store::Dest;
use std::alloc::{AllocError, Global};
use std::fmt::{Display, Write};

/// The words of a line, with a blank before each. If there was no memory for a word, there is no
/// line.
#[derive(Drop)]
pub(crate) struct Line {
    text: String,
    is_whole: bool,
}

impl Line {
    pub(crate) fn new(alloc: Global) -> Line {
        Line {
            text: String::new(alloc),
            is_whole: true,
        }
    }

    /// Returns all words.
    pub(crate) fn into_text(self) -> Result<String, AllocError> {
        if self.is_whole {
            Ok(self.text)
        } else {
            Err(AllocError)
        }
    }

    pub(crate) fn say(&mut self, word: &str) {
        self.tell(&word);
    }

    pub(crate) fn tell<T: Display>(&mut self, word: &T) {
        if write!(self.text, " {word}").is_err() {
            self.is_whole = false;
        }
    }

    pub(crate) fn yes(&mut self, answer: bool) {
        self.say(if answer { "yes" } else { "no" });
    }

    /// Adds whether the destination has its old entry.
    pub(crate) fn old(&mut self, has: bool) {
        self.say("old");
        self.yes(has);
    }

    /// Adds the result or the error of a step.
    pub(crate) fn answer<T: Display, E: Display>(&mut self, answer: &Result<T, E>) {
        match answer {
            Ok(done) => self.tell(done),
            Err(fault) => self.tell(fault),
        }
    }

    /// Adds the result of a copy, and the state of the destination afterwards.
    pub(crate) fn copy<D: Dest>(&mut self, answer: &Result<Report, CopyFault>, store: &D) {
        self.say("copy");
        self.answer(answer);
        self.state(store);
    }

    /// Adds whether a store is closed, and its number of entries.
    pub(crate) fn state<D: Dest>(&mut self, store: &D) {
        self.say("closed");
        self.say(match store.missing() {
            Ok(None) => "yes",
            Ok(Some(_)) => "no",
            Err(_) => "34 Memory",
        });
        self.say("entries");
        self.tell(&store.count());
    }
}
