// The script as it is read: blocks, cut into lines. A comment is not kept, and of several spaces one is, so that only a line's
// words take room.
//
// Stays: blocks, and no `std::io::BufReader` with `bytes()`, which takes its block from the heap and could end a run for want of memory.
use crate::image::Image;
use crate::print::{LINE_LIMIT, Stopped};
use crate::script::Command;
use crate::session::Session;
use crate::words::ParseError;
use crate::{print, script};
use arrayvec::ArrayVec;
use std::io::Read;

// How many bytes of the script are read at once.
const BLOCK: usize = 4096;

// Where in a line its next byte stands.
#[derive(Clone, Copy, Debug, PartialEq, Eq)]
enum At {
    // Behind a space, or at the start, where a space would divide nothing.
    Gap,
    Word,
    Comment,
    // Behind more bytes than are kept of a line.
    TooFar,
}

// A line as far as it is read, and what is kept of it.
#[derive(Debug, Drop, PartialEq, Eq)]
struct Line {
    kept: ArrayVec<u8, LINE_LIMIT>,
    at: At,
}

impl Line {
    fn new() -> Line {
        Line {
            kept: ArrayVec::new(),
            at: At::Gap,
        }
    }

    fn clear(&mut self) {
        self.kept.clear();
        self.at = At::Gap;
    }

    // Reads the line's next byte.
    fn add(&mut self, b: u8) {
        self.at = match (self.at, b) {
            (At::TooFar, _) => At::TooFar,
            (At::Comment, _) | (_, b'#') => At::Comment,
            (At::Gap, b' ') => At::Gap,
            _ if self.kept.try_push(b).is_err() => At::TooFar,
            (_, b' ') => At::Gap,
            _ => At::Word,
        };
    }

    // The command that the line says, if it has a word.
    fn command(&self) -> Option<Result<Command, ParseError>> {
        if self.at == At::TooFar {
            Some(Err(ParseError::TooLong))
        } else if self.kept.is_empty() {
            None
        } else {
            Some(script::parse(&self.kept))
        }
    }
}

// Carries a line out, if it has a word.
fn step(rt: &HostRuntime, image: &mut Image, s: &mut Session, line: &Line) -> Result<(), Stopped> {
    match line.command() {
        Some(command) => s.step(rt, image, command),
        None => Ok(()),
    }
}

/// Carries out the whole script, from standard input, line after line; the last may lack its end. If it cannot be read to its end,
/// that is said.
pub(crate) fn run(rt: &HostRuntime, image: &mut Image, s: &mut Session) -> Result<(), Stopped> {
    let mut line = Line::new();
    let mut block = [0; BLOCK];
    // A proved loop has to end, and nothing says that the script does: so its turns are counted.
    for _ in 0..u64::MAX {
        let n = match rt.stdin().read(&mut block) {
            Ok(n) => n,
            Err(e) => return Err(print::fail(rt, "standard input", e)),
        };
        if n == 0 {
            break;
        }
        for &b in &block[..n] {
            if b == b'\n' {
                step(rt, image, s, &line)?;
                line.clear();
            } else {
                line.add(b);
            }
        }
    }
    step(rt, image, s, &line)
}
