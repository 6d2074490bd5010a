ghost use Rattle.std.specs.Prelude.{◌≡◌, ◌*◌, ◌-◌, ◌<◌, ◌≤◌, ◌↔◌, ◌⊎◌, IfSome, IsNone};

use std::fmt;
use std::fmt::Display;

/// A size in bytes. `Display` prints it as people read it: `385 B`, `1.2 KB`, `34.0 MB`. Each unit
/// is 1000 times the one before it, up to GB. The one decimal is rounded.
#[derive(Clone, Copy)]
pub struct Readable(pub u64);

impl Display for Readable {
    fn fmt<W: fmt::Write>(&self, f: &mut fmt::Formatter<W>) -> fmt::Result {
        let size = self.0;
        // Half of a tenth of the unit, so that a division and a halving round to the nearest tenth.
        let (step, unit) = match size {
            0..=999 => return write!(f, "{size} B"),
            1_000..=999_949 => (50, "KB"),
            999_950..=999_949_999 => (50_000, "MB"),
            _ => (50_000_000, "GB"),
        };
        let tenths = (size / step + 1) / 2;
        write!(f, "{}.{} {unit}", tenths / 10, tenths % 10)
    }
}

/// A time in seconds that something still takes. `Display` prints it as people read it: `6 s`,
/// `3 min 20 s`, and from an hour on `2 h 5 min`, rounded up. More than 99 hours print as
/// `over 99 h`.
#[derive(Clone, Copy)]
pub struct TimeLeft(pub u64);

impl TimeLeft {
    /// Returns the time that bytes take at a rate, rounded up to seconds. There is none for no byte
    /// and for the rate 0.
    pub fn of(bytes: u64, rate: u64) -> Option<TimeLeft>
        ensures none { IsNone result ↔ (bytes ≡ 0) ⊎ (rate ≡ 0) }
        ensures enough { IfSome result (λ left. bytes ≤ left.0 * rate) }
        ensures least { IfSome result (λ left. (left.0 - 1) * rate < bytes) }
    {
        if bytes == 0 || rate == 0 {
            return None;
        }
        Some(TimeLeft(bytes.div_ceil(rate)))
    }
}

impl Display for TimeLeft {
    fn fmt<W: fmt::Write>(&self, f: &mut fmt::Formatter<W>) -> fmt::Result {
        let seconds = self.0;
        match seconds {
            0..=59 => write!(f, "{seconds} s"),
            60..=3_599 => write!(f, "{} min {} s", seconds / 60, seconds % 60),
            3_600..=356_400 => {
                let minutes = seconds.div_ceil(60);
                write!(f, "{} h {} min", minutes / 60, minutes % 60)
            }
            _ => write!(f, "over 99 h"),
        }
    }
}
