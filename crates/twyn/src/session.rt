// A running script: what it has brought about so far, and what each command does to it.
use crate::answers::Told;
use crate::image::Image;
use crate::print::{Hex, Stopped, UNREADABLE};
use crate::requests::Outcome;
use crate::script::{Areas, Change, Command, Question, Target};
use crate::words::ParseError;
use crate::{calls, image, listing, print, requests, store};
use desk::{Desk, Reply};
use numbers::RECORD_LIMIT;
use std::io;

/// A script that runs.
#[derive(Clone, Copy)]
pub(crate) struct Session<'a> {
    desk: Desk,
    /// Whether the image was changed.
    changed: bool,
    /// The file that the image would be written to first, as long as it is not known that it can be made.
    untried: Option<&'a str>,
}

// The longest buffer that a script may read into. It holds the longest text that can be stored: as many bytes of $FF as a record may
// have, 127 spaces each.
const LONGEST: usize = 128 * RECORD_LIMIT;

// A buffer as it is before a read, made in a function of its own: its result's length is known by its type.
fn blank() -> [u8; LONGEST] {
    [0xEE; LONGEST]
}

fn print_sector(rt: &HostRuntime, image: &[u8], number: u32) -> io::Result<()> {
    let from = 256 * number as usize;
    match image.get(from..from + 256) {
        Some(sector) => print::line(rt, Hex(sector)),
        None => print::line(rt, UNREADABLE),
    }
}

impl<'a> Session<'a> {
    /// A script at its start. `new_file` is the file that the image is to be written to first, if it is to be written back.
    pub(crate) fn new(new_file: Option<&'a str>) -> Session<'a> {
        Session {
            desk: Desk::empty(),
            changed: false,
            untried: new_file,
        }
    }

    /// Whether the image was changed.
    pub(crate) fn has_changed(&self) -> bool {
        self.changed
    }

    // Takes a call's desk over, and prints its answer.
    fn reply(&mut self, rt: &HostRuntime, r: Reply) -> io::Result<()> {
        self.desk = r.desk;
        print::line(rt, Told(r.answer))
    }

    // The image is zeros, as many as was asked, and the desk is empty.
    fn renew(&mut self, rt: &HostRuntime, image: &mut Image, size: u32) -> io::Result<()> {
        if image::clear(image, size).is_none() {
            return print::line(rt, UNREADABLE);
        }
        self.desk = Desk::empty();
        self.changed = true;
        print::line(rt, format_args!("new {size}"))
    }

    fn poke(&mut self, rt: &HostRuntime, image: &mut [u8], at: u32, s: &[u8]) -> io::Result<()> {
        if image::poke(image, at, s).is_none() {
            return print::line(rt, UNREADABLE);
        }
        self.changed = true;
        print::line(rt, "poke")
    }

    fn change(&mut self, rt: &HostRuntime, image: &mut [u8], call: &Change) -> io::Result<()> {
        let r = calls::change(self.desk, image, call);
        self.changed |= r.answer.is_ok();
        self.reply(rt, r)
    }

    fn ask(&mut self, rt: &HostRuntime, image: &[u8], call: &Question) -> io::Result<()> {
        self.reply(rt, calls::ask(self.desk, image, call))
    }

    // A request that was carried out counts as a change of the image, whatever it asked for.
    fn count(&mut self, o: &Outcome) {
        self.changed = self.changed || o.is_done();
    }

    // The desk is lent in its packed form, and what that is after the request is the script's desk.
    fn request(
        &mut self,
        rt: &HostRuntime,
        image: &mut [u8],
        caller: u32,
        areas: Areas,
    ) -> io::Result<()> {
        let mut bytes = listing::packed(self.desk);
        let o = requests::run(image, &mut bytes, caller, areas);
        self.desk = front::desks::open(&bytes);
        self.count(&o);
        print::line(rt, format_args!("{:02X} {o}", o.number()))
    }

    // The line brings the desk bytes, and the script's desk is left.
    fn request_with(
        &mut self,
        rt: &HostRuntime,
        image: &mut [u8],
        desk: &mut [u8],
        caller: u32,
        areas: Areas,
    ) -> io::Result<()> {
        let o = requests::run(image, desk, caller, areas);
        self.count(&o);
        print::line(
            rt,
            format_args!("{:02X} {} {o}", o.number(), print::Area(desk)),
        )
    }

    // Reads into the front of a buffer, as many bytes as the line asks for, and prints the answer and that front, refused or not.
    fn read(
        &mut self,
        rt: &HostRuntime,
        image: &[u8],
        target: Target,
        length: u32,
    ) -> io::Result<()> {
        let n = length as usize;
        if LONGEST < n {
            return print::line(rt, UNREADABLE);
        }
        // Stays: the front of a fixed room. A `Vec` of that length could end the run for want of memory.
        let mut buffer = blank();
        let r = calls::read(self.desk, image, target, &mut buffer[..n]);
        self.desk = r.desk;
        let told = Told(r.answer);
        if n == 0 {
            print::begin(rt, format_args!("{told} -"))?;
        } else {
            print::begin(rt, format_args!("{told} "))?;
            print::blocks(rt, &buffer[..n])?;
        }
        print::line(rt, "")
    }

    // Carries a command out, and prints its line.
    fn carry_out(
        &mut self,
        rt: &HostRuntime,
        image: &mut Image,
        command: Command,
    ) -> io::Result<()> {
        match command {
            Command::New { size } => self.renew(rt, image, size),
            Command::Poke { at, bytes } => self.poke(rt, image, at, &bytes),
            Command::Change(call) => self.change(rt, image, &call),
            Command::Iocb { caller, areas } => self.request(rt, image, caller, areas),
            Command::IocbWith {
                mut desk,
                caller,
                areas,
            } => self.request_with(rt, image, &mut desk, caller, areas),
            Command::Ask(call) => self.ask(rt, image, &call),
            Command::Read { target, length } => self.read(rt, image, target, length),
            Command::Sector { number } => print_sector(rt, image, number),
            Command::Desk => print::line(rt, listing::Units(self.desk)),
            Command::DeskBytes => print::line(rt, Hex(&listing::packed(self.desk))),
            Command::Sum => print::line(
                rt,
                format_args!("{} {}", image.len(), image::adler(image)),
            ),
            Command::Map => listing::print_map(rt, image),
        }
    }

    // Before the first command that may change the image it is seen to that it can be written back; otherwise the run ends there, with
    // nothing changed.
    fn make_ready(&mut self, rt: &HostRuntime) -> Result<(), Stopped> {
        if let Some(name) = self.untried {
            store::try_new(rt, name)?;
            self.untried = None;
        }
        Ok(())
    }

    /// Carries a line of the script out.
    pub(crate) fn step(
        &mut self,
        rt: &HostRuntime,
        image: &mut Image,
        line: Result<Command, ParseError>,
    ) -> Result<(), Stopped> {
        let printed = match line {
            Ok(command) => {
                if command.may_change() {
                    self.make_ready(rt)?;
                }
                self.carry_out(rt, image, command)
            }
            Err(_) => print::line(rt, UNREADABLE),
        };
        match printed {
            Ok(()) => Ok(()),
            Err(e) => Err(print::fail(rt, "standard output", e)),
        }
    }
}
