// A line of a script, parsed: the command, with its numbers, its bytes and its areas.
use crate::words::{Bytes, ParseError, bytes, code, flag, number};
use arrayvec::ArrayVec;
use std::str;

/// The file's part that a transfer moves, and who moves it.
#[derive(Clone, Copy, Debug, PartialEq, Eq)]
pub(crate) struct Target {
    pub(crate) caller: u32,
    pub(crate) lun: u32,
    pub(crate) selector: u32,
    pub(crate) number: u32,
    /// Whether a text is moved, and not bytes as they are.
    pub(crate) formatted: bool,
}

// Stays: a file's type, a mode and a selector as numbers. A script may ask for any, and the call itself refuses those that are none, in
// its own order of refusals.

/// A call that may change the image.
#[derive(Debug, Drop, PartialEq, Eq)]
pub(crate) enum Change {
    Format {
        id: Bytes,
        dirs: u32,
    },
    BringUp,
    Compact {
        quota: u32,
    },
    Allocate {
        caller: u32,
        descriptor: Bytes,
        kind: u32,
        size: u32,
        record: u32,
        code: u8,
    },
    Delete {
        caller: u32,
        descriptor: Bytes,
    },
    Write {
        target: Target,
        sent: Bytes,
    },
    Update {
        target: Target,
        sent: Bytes,
    },
}

/// A call that only looks at the image.
#[derive(Debug, Drop, PartialEq, Eq)]
pub(crate) enum Question {
    Check,
    Assign {
        caller: u32,
        lun: u32,
        descriptor: Bytes,
        mode: u32,
        at_end: bool,
        offered: u8,
    },
    Close {
        caller: u32,
        lun: u32,
    },
    Rewind {
        caller: u32,
        lun: u32,
    },
}

/// What a request lends beside the image and the desk bytes: its block, the task's own area and the shared segment.
#[derive(Debug, Drop, PartialEq, Eq)]
pub(crate) struct Areas {
    pub(crate) block: Bytes,
    pub(crate) task: Bytes,
    pub(crate) shared: Bytes,
}

/// A command of a script.
#[derive(Debug, Drop, PartialEq, Eq)]
pub(crate) enum Command {
    New {
        size: u32,
    },
    Poke {
        at: u32,
        bytes: Bytes,
    },
    Change(Change),
    /// A request on the script's desk.
    Iocb {
        caller: u32,
        areas: Areas,
    },
    /// A request on these desk bytes.
    IocbWith {
        desk: Bytes,
        caller: u32,
        areas: Areas,
    },
    Ask(Question),
    Read {
        target: Target,
        length: u32,
    },
    Sector {
        number: u32,
    },
    Desk,
    DeskBytes,
    Sum,
    Map,
}

impl Command {
    /// Whether the command may change the image.
    pub(crate) fn may_change(&self) -> bool {
        matches!(
            self,
            Command::New { .. }
                | Command::Poke { .. }
                | Command::Change(_)
                | Command::Iocb { .. }
                | Command::IocbWith { .. }
        )
    }
}

// The most words of a command, with its name.
const MOST_WORDS: usize = 7;

// The words of a line, of whose spaces no two stand together.
fn words_of(line: &str) -> Result<ArrayVec<&str, MOST_WORDS>, ParseError> {
    let mut words = ArrayVec::new();
    for word in line.split_terminator(' ') {
        if words.try_push(word).is_err() {
            return Err(ParseError::NoCommand);
        }
    }
    Ok(words)
}

// A transfer of bytes as they are, or of a text.
fn target_of(words: [&str; 4], formatted: bool) -> Result<Target, ParseError> {
    let [caller, lun, selector, record] = words;
    Ok(Target {
        caller: number(caller)?,
        lun: number(lun)?,
        selector: number(selector)?,
        number: number(record)?,
        formatted,
    })
}

fn write(words: [&str; 4], formatted: bool, sent: &str) -> Result<Command, ParseError> {
    Ok(Command::Change(Change::Write {
        target: target_of(words, formatted)?,
        sent: bytes(sent)?,
    }))
}

fn update(words: [&str; 4], formatted: bool, sent: &str) -> Result<Command, ParseError> {
    Ok(Command::Change(Change::Update {
        target: target_of(words, formatted)?,
        sent: bytes(sent)?,
    }))
}

fn read(words: [&str; 4], formatted: bool, length: &str) -> Result<Command, ParseError> {
    Ok(Command::Read {
        target: target_of(words, formatted)?,
        length: number(length)?,
    })
}

fn areas_of(block: &str, task: &str, shared: &str) -> Result<Areas, ParseError> {
    Ok(Areas {
        block: bytes(block)?,
        task: bytes(task)?,
        shared: bytes(shared)?,
    })
}

fn allocate(words: [&str; 5], code: u8) -> Result<Command, ParseError> {
    let [caller, descriptor, kind, size, record] = words;
    Ok(Command::Change(Change::Allocate {
        caller: number(caller)?,
        descriptor: bytes(descriptor)?,
        kind: number(kind)?,
        size: number(size)?,
        record: number(record)?,
        code,
    }))
}

fn assign(words: [&str; 5], offered: u8) -> Result<Command, ParseError> {
    let [caller, lun, descriptor, mode, end] = words;
    Ok(Command::Ask(Question::Assign {
        caller: number(caller)?,
        lun: number(lun)?,
        descriptor: bytes(descriptor)?,
        mode: number(mode)?,
        at_end: flag(end)?,
        offered,
    }))
}

// The calls. Whoever has no read-protect code need not say one, and it is 0 then.
fn call(words: &[&str]) -> Result<Command, ParseError> {
    match *words {
        ["format", id, dirs] => Ok(Command::Change(Change::Format {
            id: bytes(id)?,
            dirs: number(dirs)?,
        })),
        ["bring-up"] => Ok(Command::Change(Change::BringUp)),
        ["compact", quota] => Ok(Command::Change(Change::Compact {
            quota: number(quota)?,
        })),
        ["allocate", a, b, c, d, e] => allocate([a, b, c, d, e], 0),
        ["allocate", a, b, c, d, e, read_code] => allocate([a, b, c, d, e], code(read_code)?),
        ["delete", caller, descriptor] => Ok(Command::Change(Change::Delete {
            caller: number(caller)?,
            descriptor: bytes(descriptor)?,
        })),
        ["write", a, b, c, d, sent] => write([a, b, c, d], false, sent),
        ["write-text", a, b, c, d, sent] => write([a, b, c, d], true, sent),
        ["update", a, b, c, d, sent] => update([a, b, c, d], false, sent),
        ["update-text", a, b, c, d, sent] => update([a, b, c, d], true, sent),
        ["check"] => Ok(Command::Ask(Question::Check)),
        ["assign", a, b, c, d, e] => assign([a, b, c, d, e], 0),
        ["assign", a, b, c, d, e, offered] => assign([a, b, c, d, e], code(offered)?),
        ["close", caller, lun] => Ok(Command::Ask(Question::Close {
            caller: number(caller)?,
            lun: number(lun)?,
        })),
        ["rewind", caller, lun] => Ok(Command::Ask(Question::Rewind {
            caller: number(caller)?,
            lun: number(lun)?,
        })),
        ["read", a, b, c, d, length] => read([a, b, c, d], false, length),
        ["read-text", a, b, c, d, length] => read([a, b, c, d], true, length),
        _ => Err(ParseError::NoCommand),
    }
}

// The command that the words are: one of the program's own, or a call.
fn command_of(words: &[&str]) -> Result<Command, ParseError> {
    match *words {
        ["new", size] => Ok(Command::New {
            size: number(size)?,
        }),
        ["poke", at, put] => Ok(Command::Poke {
            at: number(at)?,
            bytes: bytes(put)?,
        }),
        ["iocb", caller, block, task, shared] => Ok(Command::Iocb {
            caller: number(caller)?,
            areas: areas_of(block, task, shared)?,
        }),
        ["iocb-with", desk, caller, block, task, shared] => Ok(Command::IocbWith {
            desk: bytes(desk)?,
            caller: number(caller)?,
            areas: areas_of(block, task, shared)?,
        }),
        ["sector", sector] => Ok(Command::Sector {
            number: number(sector)?,
        }),
        ["desk"] => Ok(Command::Desk),
        ["desk-bytes"] => Ok(Command::DeskBytes),
        ["sum"] => Ok(Command::Sum),
        ["map"] => Ok(Command::Map),
        _ => call(words),
    }
}

/// The command that the line says. No two of its spaces stand together, and none stands at its start.
pub(crate) fn parse(line: &[u8]) -> Result<Command, ParseError> {
    let Ok(line) = str::from_utf8(line) else {
        return Err(ParseError::NotText);
    };
    let words = words_of(line)?;
    command_of(&words)
}
