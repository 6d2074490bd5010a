use crate::readable::{Readable, TimeLeft};
use crate::speed::{Mark, Speed};
use oci_manifest::Key;
use std::fmt;
use std::fmt::Display;
use std::io::Write;
use std::sync::{Mutex, Wait};
use std::time::{Clock, Duration, Instant};

/// Minimum time between redraws, in milliseconds.
const PAUSE: u64 = 100;

/// A number of blobs, and the number of their bytes.
#[derive(Clone, Copy)]
pub struct Amount {
    /// The number of blobs.
    pub blobs: u64,
    /// The number of their bytes.
    pub bytes: u64,
}

impl Amount {
    /// No blob.
    pub const NONE: Amount = Amount { blobs: 0, bytes: 0 };

    /// Returns the amount with one more blob. Both numbers stop at 2^64 - 1.
    pub fn with(self, key: &Key) -> Amount {
        Amount {
            blobs: self.blobs.saturating_add(1),
            bytes: self.bytes.saturating_add(key.size()),
        }
    }
}

/// The text of the line.
#[derive(Clone, Copy)]
struct Progress {
    arrived: Amount,
    all: Amount,
    /// Bytes in a second, once it is known.
    rate: Option<u64>,
}

impl Display for Progress {
    fn fmt<W: fmt::Write>(&self, f: &mut fmt::Formatter<W>) -> fmt::Result {
        let (arrived, all) = (self.arrived, self.all);
        write!(
            f,
            "{} of {} blobs, {} of {}",
            arrived.blobs,
            all.blobs,
            Readable(arrived.bytes),
            Readable(all.bytes)
        )?;
        let Some(rate) = self.rate else {
            return Ok(());
        };
        write!(f, ", {}/s", Readable(rate))?;
        match TimeLeft::of(all.bytes.saturating_sub(arrived.bytes), rate) {
            Some(left) => write!(f, ", {left} left"),
            None => Ok(()),
        }
    }
}

/// The line, and the terminal that it is drawn on.
#[derive(Drop)]
struct Line<'p, X> {
    err: &'p mut X,
    arrived: Amount,
    /// The speed at the last drawing, if the line is drawn.
    drawn: Option<Speed>,
}

impl<'p, X: Write> Line<'p, X> {
    /// Draws the line if it is due. A failed write is ignored.
    fn draw_if_due<R: Clock>(&mut self, rt: &R, all: Amount) {
        let Ok(now) = Instant::now(rt) else {
            return;
        };
        let arrived = self.arrived;
        let mark = Mark {
            time: now,
            bytes: arrived.bytes,
        };
        let speed = match self.drawn {
            None => Speed::starting(mark),
            Some(speed) if speed.since_last(now) < Duration::from_millis(PAUSE) => return,
            Some(speed) => speed.at(mark),
        };
        self.drawn = Some(speed);
        let rate = speed.rate();
        let progress = Progress { arrived, all, rate };
        // (between `?7l` and `?7h` a terminal cuts a line at its margin, and does not wrap it)
        let _ = write!(self.err, "\r\x1b[?7l{progress}\x1b[K\x1b[?7h");
        let _ = self.err.flush();
    }

    /// Erases the line if it is drawn. A failed write is ignored.
    fn erase(&mut self) {
        if self.drawn.is_some() {
            self.drawn = None;
            let _ = write!(self.err, "\r\x1b[K");
            let _ = self.err.flush();
        }
    }
}

/// Draws one line on a terminal: how many of all blobs, and of their bytes, have arrived, how many
/// bytes arrive in a second, and the time that the others take at that rate:
/// `3 of 12 blobs, 1.2 MB of 34.0 MB, 5.2 MB/s, 6 s left`.
///
/// It is drawn when the first bytes or the first blob are counted, and from then on at most ten
/// times a second. The rate is that of the last five to ten seconds. It is left out, with the time,
/// in the first second; the time is left out if the rate is 0, or if everything has arrived. A
/// terminal that is too narrow for the line cuts it. If the line cannot be written, it is left out
/// and the work goes on.
#[derive(Drop)]
pub struct ProgressLine<'p, R, X> {
    rt: &'p R,
    all: Amount,
    line: Mutex<Line<'p, X>>,
}

impl<'p, R: Clock + Wait, X: Write> ProgressLine<'p, R, X> {
    /// Creates the line for this amount, of which nothing has arrived. Nothing is drawn yet.
    pub fn new(rt: &'p R, err: &'p mut X, all: Amount) -> ProgressLine<'p, R, X> {
        ProgressLine {
            rt,
            all,
            line: Mutex::new(Line {
                err,
                arrived: Amount::NONE,
                drawn: None,
            }),
        }
    }

    /// Counts bytes that arrived, and draws the line if it is due.
    pub fn add_bytes(&self, length: usize) {
        let mut line = self.line.lock(self.rt);
        line.arrived.bytes = line.arrived.bytes.saturating_add(length as u64);
        line.draw_if_due(self.rt, self.all);
    }

    /// Counts a blob that arrived, but not its bytes, and draws the line if it is due.
    pub fn add_blob(&self) {
        let mut line = self.line.lock(self.rt);
        line.arrived.blobs = line.arrived.blobs.saturating_add(1);
        line.draw_if_due(self.rt, self.all);
    }

    /// Erases the line if it is drawn. It is drawn again only if more is counted.
    pub fn erase(&self) {
        let mut line = self.line.lock(self.rt);
        line.erase();
    }
}
