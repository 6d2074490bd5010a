ghost use Rattle.std.specs.Prelude.{◌≡◌, ◌*◌, ◌/◌, ◌-◌, ◌^◌, min};
ghost use Rattle.std.specs.Duration.{as_nanos};

use std::time::{Duration, Instant};

/// The time after which a mark is replaced, in seconds.
const SHIFT: u64 = 5;

/// The number of bytes that had arrived at a time.
#[derive(Clone, Copy)]
pub(crate) struct Mark {
    pub(crate) time: Instant,
    pub(crate) bytes: u64,
}

/// How fast bytes arrive, as seen over the last five to ten seconds, or over a longer time if there
/// was no mark in between.
#[derive(Clone, Copy)]
pub(crate) struct Speed {
    /// The time of the first mark.
    first: Instant,
    /// The mark that the rate counts from.
    older: Mark,
    /// The mark that takes its place once it is five seconds old.
    newer: Mark,
    /// The last mark.
    last: Mark,
}

impl Speed {
    /// Returns the speed that is measured from this mark on.
    pub(crate) fn starting(mark: Mark) -> Speed {
        Speed {
            first: mark.time,
            older: mark,
            newer: mark,
            last: mark,
        }
    }

    /// Returns the speed at this mark.
    pub(crate) fn at(self, mark: Mark) -> Speed {
        let age = mark.time.duration_since(self.newer.time);
        let (older, newer) = if age < Duration::from_secs(SHIFT) {
            (self.older, self.newer)
        } else {
            (self.newer, mark)
        };
        Speed {
            first: self.first,
            older,
            newer,
            last: mark,
        }
    }

    /// Returns the time that has passed since the last mark.
    pub(crate) fn since_last(self, now: Instant) -> Duration {
        now.duration_since(self.last.time)
    }

    /// Returns the number of bytes in a second, or nothing before the end of the first second.
    pub(crate) fn rate(self) -> Option<u64> {
        if self.last.time.duration_since(self.first) < Duration::from_secs(1) {
            return None;
        }
        Some(rate(
            self.last.bytes.saturating_sub(self.older.bytes),
            self.last.time.duration_since(self.older.time),
        ))
    }
}

/// Returns the number of bytes in a second, rounded down, if this many come in a time. It is at most
/// 2^64 - 1, and 0 if no time has passed.
pub fn rate(bytes: u64, time: Duration) -> u64
    ensures { result ≡ min (bytes * 1_000_000_000 / as_nanos time) (2 ^ 64 - 1) }
{
    let nanos = time.as_nanos();
    if nanos == 0 {
        return 0;
    }
    let rate = bytes as u128 * 1_000_000_000 / nanos;
    u64::try_from(rate).unwrap_or(u64::MAX)
}
