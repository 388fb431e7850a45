// The desk and the volume as they are printed.
use crate::print;
use desk::Desk;
use deskbytes::DESK_BYTES;
use luns::{Lun, Place};
use numbers::MOST_SECTORS;
use picture::draw;
use std::{fmt, io};

// A LUN, as it is listed.
#[derive(Clone, Copy)]
struct Unit(Lun);

impl fmt::Display for Unit {
    fn fmt<W: fmt::Write>(&self, f: &mut fmt::Formatter<W>) -> fmt::Result {
        let u = self.0;
        if !u.held {
            return write!(f, "free");
        }
        write!(
            f,
            "{} {} {} {} ",
            u.user,
            u.slot,
            u.mode.number(),
            u.offered
        )?;
        match u.place {
            Place::Fresh => write!(f, "fresh"),
            Place::At { i, n } => write!(f, "at {i} {n}"),
        }
    }
}

/// The sixteen LUNs of a desk, as they are listed.
#[derive(Clone, Copy)]
pub(crate) struct Units(pub(crate) Desk);

impl fmt::Display for Units {
    fn fmt<W: fmt::Write>(&self, f: &mut fmt::Formatter<W>) -> fmt::Result {
        for (i, unit) in self.0.luns.iter().enumerate() {
            let divider = if i == 0 { "" } else { " | " };
            write!(f, "{divider}{}", Unit(*unit))?;
        }
        Ok(())
    }
}

/// The desk in its packed form.
pub(crate) fn packed(d: Desk) -> [u8; DESK_BYTES] {
    let mut bytes = [0; DESK_BYTES];
    deskbytes::pack(d.luns, &mut bytes);
    bytes
}

// Sectors of a row.
const ROW: usize = 64;

// Letters, in rows. The end of the last row is the printed line's own.
#[derive(Clone, Copy, Debug, PartialEq, Eq)]
struct Rows<'a>(&'a [u8]);

impl fmt::Display for Rows<'_> {
    fn fmt<W: fmt::Write>(&self, f: &mut fmt::Formatter<W>) -> fmt::Result {
        for (k, row) in self.0.chunks(ROW).enumerate() {
            if k != 0 {
                writeln!(f)?;
            }
            for letter in row {
                write!(f, "{}", char::from(*letter))?;
            }
        }
        Ok(())
    }
}

/// Prints the volume, a letter a sector; of one that is not sound only that.
pub(crate) fn print_map(rt: &HostRuntime, image: &[u8]) -> io::Result<()> {
    // Stays: a room with the number of letters beside it, as `draw` fills it.
    let mut letters = [0; MOST_SECTORS];
    let drawn = draw(image, &mut letters).min(MOST_SECTORS);
    if drawn == 0 {
        return print::line(rt, "6F 0");
    }
    print::line(rt, Rows(&letters[..drawn]))
}
