ghost use Rattle.std.specs.Prelude.{◌≡◌, ◌*◌};

use oci_pool::{Job, Pass};
use std::alloc::{AllocError, Global};
use std::sync::atomic::{AtomicU64, Ordering};

/// A job that returns ten times its number, and counts its runs.
#[derive(Drop)]
pub(crate) struct TenTimes {
    pub runs: AtomicU64,
}

impl TenTimes {
    pub fn new() -> TenTimes {
        TenTimes {
            runs: AtomicU64::new(0),
        }
    }
}

impl Job for TenTimes {
    ghost use Rattle.std.specs.Prelude.{◌≡◌, ◌*◌};

    type Out = u64;

    type Fault = u32;

    ghost answers = { λ job k x. x ≡ 10 * k };

    ghost fails = { λ job k f. ⊥ };

    fn run(&self, _number: u32, pass: Pass) -> Result<u64, u32> {
        self.runs.fetch_add(1, Ordering::SeqCst);
        Ok(10 * pass.number() as u64)
    }
}

/// The numbers whose jobs fail.
#[derive(Clone, Copy)]
enum Failing {
    /// These two numbers.
    Numbers(u32, u32),
    /// Each number.
    Each,
}

/// A job that returns its number, and counts its runs. At some numbers it fails with its number
/// plus 100.
#[derive(Drop)]
pub(crate) struct FailsAt {
    failing: Failing,
    /// How many jobs wait for each other before they end, or 0 if none does.
    meets: u64,
    pub runs: AtomicU64,
    /// How many jobs returned a result.
    pub answered: AtomicU64,
}

impl FailsAt {
    fn new(failing: Failing, meets: u64) -> FailsAt {
        FailsAt {
            failing,
            meets,
            runs: AtomicU64::new(0),
            answered: AtomicU64::new(0),
        }
    }

    /// Creates jobs that fail at two numbers, once `meets` jobs have begun.
    pub fn numbers(first: u32, second: u32, meets: u64) -> FailsAt {
        FailsAt::new(Failing::Numbers(first, second), meets)
    }

    /// Creates jobs that all fail.
    pub fn each() -> FailsAt {
        FailsAt::new(Failing::Each, 0)
    }

    fn fails_at(&self, number: u32) -> bool {
        match self.failing {
            Failing::Numbers(first, second) => number == first || number == second,
            Failing::Each => true,
        }
    }
}

impl Job for FailsAt {
    type Out = u32;

    type Fault = u64;

    ghost answers = { λ job k x. Unit {0} };

    ghost fails = { λ job k f. Unit {0} };

    fn run(&self, number: u32, _pass: Pass) -> Result<u32, u64> {
        self.runs.fetch_add(1, Ordering::SeqCst);
        let _ = saw(&self.runs, self.meets, MANY_LOOKS);
        if self.fails_at(number) {
            return Err(100 + number as u64);
        }
        self.answered.fetch_add(1, Ordering::SeqCst);
        Ok(number)
    }
}

/// How often a job looks for the job that it is to meet.
pub(crate) const MANY_LOOKS: u64 = 1_000_000_000;

/// Looks at a count until it is high enough, at most `looks` times. Returns whether it was.
fn saw(count: &AtomicU64, wanted: u64, looks: u64) -> bool {
    for _ in 0..looks {
        if count.load(Ordering::SeqCst) >= wanted {
            return true;
        }
    }
    false
}

/// The jobs that meet.
#[derive(Clone, Copy)]
pub(crate) struct Meeting {
    /// The least number of a job that is to meet others.
    pub from: u32,
    /// How many jobs are to meet.
    pub wanted: u64,
    /// How often a job that is to meet others looks for them, at most.
    pub looks: u64,
    /// How often a job with a lesser number looks at a count that is never reached.
    pub looks_before: u64,
}

/// Jobs that meet: each job from a number on raises a count, and looks until it is high enough. It
/// returns whether it saw that. The jobs before that number look for a while at a count that is
/// never reached, and return true.
#[derive(Drop)]
pub(crate) struct Meets {
    meeting: Meeting,
    came: AtomicU64,
}

impl Meets {
    pub fn new(meeting: Meeting) -> Meets {
        Meets {
            meeting,
            came: AtomicU64::new(0),
        }
    }
}

impl Job for Meets {
    type Out = bool;

    type Fault = u32;

    ghost answers = { λ job k x. Unit {0} };

    ghost fails = { λ job k f. Unit {0} };

    fn run(&self, number: u32, _pass: Pass) -> Result<bool, u32> {
        let meeting = self.meeting;
        if number < meeting.from {
            return Ok(!saw(&self.came, u64::MAX, meeting.looks_before));
        }
        self.came.fetch_add(1, Ordering::SeqCst);
        Ok(saw(&self.came, meeting.wanted, meeting.looks))
    }
}

/// The marks that the jobs leave at a number.
#[derive(Drop)]
struct Mark {
    /// How often its job was run.
    runs: AtomicU64,
    /// 1 if its job has ended.
    flag: AtomicU64,
}

/// Jobs that look at flags. Each job counts its run, notes whether the flags of its successors are
/// set as it starts, looks at a flag that no job sets, and sets its own flag at its end.
#[derive(Drop)]
pub(crate) struct Flags {
    lists: Vec<Vec<u32>>,
    marks: Vec<Mark>,
    looks: u64,
    never: AtomicU64,
}

/// Creates `count` marks of numbers whose jobs were not run.
fn marks(alloc: Global, count: usize) -> Result<Vec<Mark>, AllocError> {
    let mut marks = Vec::with_capacity(alloc, count)?;
    for _ in 0..count {
        marks.push(Mark {
            runs: AtomicU64::new(0),
            flag: AtomicU64::new(0),
        })?;
    }
    Ok(marks)
}

impl Flags {
    pub fn new(alloc: Global, lists: Vec<Vec<u32>>, looks: u64) -> Result<Flags, AllocError> {
        let marks = marks(alloc, lists.len())?;
        Ok(Flags {
            lists,
            marks,
            looks,
            never: AtomicU64::new(0),
        })
    }

    /// Returns whether the flag of a number is set.
    fn is_set(&self, number: u32) -> bool {
        match self.marks.get(number as usize) {
            Some(mark) => mark.flag.load(Ordering::SeqCst) == 1,
            None => false,
        }
    }

    /// Returns whether the flags of all successors of a number are set.
    fn found(&self, number: u32) -> bool {
        let Some(list) = self.lists.get(number as usize) else {
            return false;
        };
        for successor in list {
            if !self.is_set(*successor) {
                return false;
            }
        }
        true
    }

    /// Returns whether the flag that no job sets is ever seen set.
    fn saw_never(&self) -> bool {
        for _ in 0..self.looks {
            if self.never.load(Ordering::SeqCst) == 1 {
                return true;
            }
        }
        false
    }

    /// Returns whether each job was run once.
    pub fn ran_once(&self) -> bool {
        for mark in &self.marks {
            if mark.runs.load(Ordering::SeqCst) != 1 {
                return false;
            }
        }
        true
    }
}

impl Job for Flags {
    type Out = bool;

    type Fault = u32;

    ghost answers = { λ job k x. Unit {0} };

    ghost fails = { λ job k f. Unit {0} };

    fn run(&self, number: u32, _pass: Pass) -> Result<bool, u32> {
        if let Some(mark) = self.marks.get(number as usize) {
            mark.runs.fetch_add(1, Ordering::SeqCst);
        }
        let found = self.found(number);
        if self.saw_never() {
            return Err(number);
        }
        if let Some(mark) = self.marks.get(number as usize) {
            mark.flag.store(1, Ordering::SeqCst);
        }
        Ok(found)
    }
}
