// What is printed. A line is made whole and written at once; only the buffer of a read, which may be long, is written after it, in
// blocks.
use arrayvec::ArrayString;
use std::fmt::{Display, Write};
use std::{fmt, io, str};

/// The most bytes of a line of a script, and of a printed one.
pub(crate) const LINE_LIMIT: usize = 16640;

/// What is printed for a line that cannot be read or carried out.
pub(crate) const UNREADABLE: &str = "?";

/// The run ends here, and nothing is written back. Why has been said.
#[derive(Clone, Copy, Debug, PartialEq, Eq)]
pub(crate) struct Stopped;

/// Bytes, printed as pairs of upper-case hexadecimal digits.
#[derive(Clone, Copy, Debug, PartialEq, Eq)]
pub(crate) struct Hex<'a>(pub(crate) &'a [u8]);

// The upper-case hexadecimal digit of a byte's lower half.
fn digit(byte: u8) -> u8 {
    let d = byte % 16;
    if d < 10 { b'0' + d } else { b'A' - 10 + d }
}

// How many bytes' digits are handed to the formatter at once: with a call for each byte a long read takes thirty times as long.
const PART: usize = 512;

impl fmt::Display for Hex<'_> {
    fn fmt<W: fmt::Write>(&self, f: &mut fmt::Formatter<W>) -> fmt::Result {
        for bytes in self.0.chunks(PART) {
            let mut digits = [[b'0'; 2]; PART];
            for (pair, byte) in digits.iter_mut().zip(bytes) {
                *pair = [digit(byte / 16), digit(*byte)];
            }
            match str::from_utf8(digits[..bytes.len()].as_flattened()) {
                Ok(text) => f.write_str(text)?,
                // Digits are text, but that is not proved: so what is printed does not hang on it.
                Err(_) => {
                    for byte in bytes {
                        write!(f, "{byte:02X}")?;
                    }
                }
            }
        }
        Ok(())
    }
}

/// The bytes of an area, printed in hexadecimal, `-` if there is none.
#[derive(Clone, Copy, Debug, PartialEq, Eq)]
pub(crate) struct Area<'a>(pub(crate) &'a [u8]);

impl fmt::Display for Area<'_> {
    fn fmt<W: fmt::Write>(&self, f: &mut fmt::Formatter<W>) -> fmt::Result {
        if self.0.is_empty() {
            return write!(f, "-");
        }
        write!(f, "{}", Hex(self.0))
    }
}

/// Prints a line's beginning. It holds the longest line, and the digits of a block.
pub(crate) fn begin<T: Display + Drop>(rt: &HostRuntime, what: T) -> io::Result<()> {
    let mut text = ArrayString::<LINE_LIMIT>::new();
    let _fits = write!(text, "{what}");
    rt.write_all(text.as_str().as_bytes())
}

/// Prints a line.
pub(crate) fn line<T: Display + Drop>(rt: &HostRuntime, what: T) -> io::Result<()> {
    let mut text = ArrayString::<LINE_LIMIT>::new();
    let _fits = writeln!(text, "{what}");
    rt.write_all(text.as_str().as_bytes())
}

// How many bytes are written at once in hexadecimal.
const BLOCK: usize = 8192;

/// Prints more of a line: these bytes in hexadecimal, block after block.
pub(crate) fn blocks(rt: &HostRuntime, s: &[u8]) -> io::Result<()> {
    for block in s.chunks(BLOCK) {
        begin(rt, Hex(block))?;
    }
    Ok(())
}

/// Says a line on standard error: why the run ends. If it cannot be written, nobody is left to be told.
pub(crate) fn say(rt: &HostRuntime, line: &str) -> Stopped {
    let _ = eprintln!(rt; "{line}");
    Stopped
}

// The error's words, without the number that `io::Error` writes after them.
fn words_alone(text: &str) -> &str {
    match text.split_once(" (os error ") {
        Some((words, _)) => words,
        None => text,
    }
}

// Room for the system's words on an error.
const WORDS: usize = 256;

/// Says on standard error what failed, and why, in the system's words.
pub(crate) fn fail(rt: &HostRuntime, what: &str, error: io::Error) -> Stopped {
    let mut text = ArrayString::<WORDS>::new();
    let _ = match write!(text, "{error}") {
        Ok(()) => eprintln!(rt; "{what}: {}", words_alone(text.as_str())),
        Err(_) => eprintln!(rt; "{what}: {error}"),
    };
    Stopped
}
