use std::io;
use std::io::Write;

/// The first byte of the two that a control character from U+0080 to U+009F has in UTF-8.
const LEAD: u8 = 0xc2;

/// A writer to what may be a terminal. On one it writes each control character, but for line feeds and
/// tabs, as an escape such as `\u{1b}`, so that a text of a layout cannot make the terminal do anything.
#[derive(Drop)]
pub(crate) struct Escaped<W> {
    out: W,
    is_terminal: bool,
    /// Whether a byte [`LEAD`] was taken that is not written yet, since the next one decides.
    holds_lead: bool,
}

impl<W: Write> Escaped<W> {
    /// Returns a writer that writes to `out`.
    pub(crate) fn new(out: W, is_terminal: bool) -> Escaped<W> {
        Escaped {
            out,
            is_terminal,
            holds_lead: false,
        }
    }

    /// Writes a byte, or an escape in the place of a control character.
    fn put(&mut self, byte: u8) -> io::Result<()> {
        if self.holds_lead {
            self.holds_lead = false;
            if matches!(byte, 0x80..=0x9f) {
                return self.put_escape(byte);
            }
            self.out.write_all(&[LEAD])?;
        }
        match byte {
            LEAD => {
                self.holds_lead = true;
                Ok(())
            }
            b'\n' | b'\t' => self.out.write_all(&[byte]),
            0..=0x1f | 0x7f => self.put_escape(byte),
            _ => self.out.write_all(&[byte]),
        }
    }

    /// Writes the escape of the control character with this number.
    fn put_escape(&mut self, number: u8) -> io::Result<()> {
        write!(self.out, "\\u{{{number:x}}}")
    }
}

impl<W: Write> Write for Escaped<W> {
    fn write(&mut self, bytes: &[u8]) -> io::Result<usize> {
        if !self.is_terminal {
            return self.out.write(bytes);
        }
        for byte in bytes {
            self.put(*byte)?;
        }
        Ok(bytes.len())
    }

    fn flush(&mut self) -> io::Result<()> {
        if self.holds_lead {
            self.holds_lead = false;
            self.out.write_all(&[LEAD])?;
        }
        self.out.flush()
    }
}
