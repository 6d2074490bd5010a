//! The line on a terminal, with a clock that the test sets.

use oci_progress::{Amount, ProgressLine, TimeLeft};
use std::cell::Cell;
use std::io;
use std::process::Abort;
use std::sync::Wait;
use std::test::Fail;
use std::time::{Clock, Duration};

/// A clock that is set to a number of milliseconds.
#[derive(Drop)]
struct SetClock<'r, R> {
    rt: &'r R,
    millis: Cell<u64>,
}

impl<'r, R: Clock> Clock for SetClock<'r, R> {
    fn monotonic(&self) -> io::Result<Duration> {
        Ok(Duration::from_millis(self.millis.get()))
    }

    fn since_1970(&self) -> io::Result<Duration> {
        self.rt.since_1970()
    }
}

impl<'r, R: Wait> Wait for SetClock<'r, R> {}

/// A part of a blob: the time when it arrives, in milliseconds, and the number of its bytes.
#[derive(Clone, Copy)]
struct Part(u64, usize);

/// All that is written while these parts of a blob arrive.
fn drawn<R: Clock + Wait + AllocGlobal>(rt: &R, size: u64, parts: &[Part]) -> Result<String, Fail> {
    let clock = SetClock {
        rt,
        millis: Cell::new(0),
    };
    let all = Amount {
        blobs: 1,
        bytes: size,
    };
    let mut err = Vec::new(rt.alloc());
    let line = ProgressLine::new(&clock, &mut err, all);
    for Part(millis, length) in parts {
        clock.millis.set(*millis);
        line.add_bytes(*length);
    }
    line.erase();
    drop(line);
    Ok(String::from_str(rt.alloc(), str::from_utf8(&err)?)?)
}

/// The second part comes less than a tenth of a second after the first, so the line is not drawn.
/// From one second after the first drawing on, the line has the rate since then, and the time that
/// is left, rounded up: 9 MB at 2 MB/s, and 8 MB at 1.5 MB/s. At the end there is no time left.
#[test]
fn line_of_the_first_seconds(rt: HostRuntime) -> Result<(), Fail> {
    let parts = [
        Part(0, 1_000_000),
        Part(99, 500_000),
        Part(500, 500_000),
        Part(1_000, 1_000_000),
        Part(2_000, 1_000_000),
        Part(4_000, 8_000_000),
    ];
    let wanted = "\
\r\x1b[?7l0 of 1 blobs, 1.0 MB of 12.0 MB\x1b[K\x1b[?7h\
\r\x1b[?7l0 of 1 blobs, 2.0 MB of 12.0 MB\x1b[K\x1b[?7h\
\r\x1b[?7l0 of 1 blobs, 3.0 MB of 12.0 MB, 2.0 MB/s, 5 s left\x1b[K\x1b[?7h\
\r\x1b[?7l0 of 1 blobs, 4.0 MB of 12.0 MB, 1.5 MB/s, 6 s left\x1b[K\x1b[?7h\
\r\x1b[?7l0 of 1 blobs, 12.0 MB of 12.0 MB, 2.8 MB/s\x1b[K\x1b[?7h\
\r\x1b[K";
    let told = drawn(&rt, 12_000_000, &parts)?;
    assert_eq!(&rt; told.as_str(), wanted);
    Ok(())
}

/// The rate is that of the last five to ten seconds: after 50 MB at once, one megabyte comes in
/// each second.
#[test]
fn rate_of_the_last_seconds(rt: HostRuntime) -> Result<(), Fail> {
    let mut parts = vec![in rt.alloc(); Part(0, 1_000_000), Part(500, 50_000_000)]?;
    for second in 1..=16 {
        parts.push(Part(second * 1_000, 1_000_000))?;
    }
    let wanted =
        "\r\x1b[?7l0 of 1 blobs, 67.0 MB of 100.0 MB, 1.0 MB/s, 33 s left\x1b[K\x1b[?7h\r\x1b[K";
    let told = drawn(&rt, 100_000_000, &parts)?;
    assert!(&rt; told.as_str().ends_with(wanted), "{told:?}");
    Ok(())
}

/// Times in seconds, and their texts. From an hour on they are rounded up to minutes.
const TIMES: [(u64, &str); 11] = [
    (1, "1 s"),
    (59, "59 s"),
    (60, "1 min 0 s"),
    (200, "3 min 20 s"),
    (3_599, "59 min 59 s"),
    (3_600, "1 h 0 min"),
    (3_601, "1 h 1 min"),
    (7_500, "2 h 5 min"),
    (356_400, "99 h 0 min"),
    (356_401, "over 99 h"),
    (u64::MAX, "over 99 h"),
];

#[test]
fn times_left(rt: HostRuntime) -> Result<(), Fail> {
    for (seconds, wanted) in TIMES {
        assert_time(&rt, seconds, wanted)?;
    }
    Ok(())
}

fn assert_time<R: AllocGlobal + Abort>(rt: &R, seconds: u64, wanted: &str) -> Result<(), Fail> {
    let told = format!(in rt.alloc(); "{}", TimeLeft(seconds))?;
    assert_eq!(rt; told.as_str(), wanted);
    Ok(())
}
