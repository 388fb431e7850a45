// The service's calls, as a script asks for them.
use crate::script::{Change, Question, Target};
use desk::{Desk, Reply};

/// Carries out a call that may change the image.
pub(crate) fn change(d: Desk, image: &mut [u8], call: &Change) -> Reply {
    match call {
        Change::Format { id, dirs } => d.format(image, id, *dirs),
        Change::BringUp => d.bring_up(image),
        Change::Compact { quota } => d.compact(image, *quota),
        Change::Allocate {
            caller,
            descriptor,
            kind,
            size,
            record,
            code,
        } => d.allocate(image, *caller, descriptor, *kind, *size, *record, *code),
        Change::Delete { caller, descriptor } => d.delete(image, *caller, descriptor),
        Change::Write { target: t, sent } => d.write(
            image,
            t.caller,
            t.lun,
            t.selector,
            t.number,
            t.formatted,
            sent,
        ),
        Change::Update { target: t, sent } => d.update(
            image,
            t.caller,
            t.lun,
            t.selector,
            t.number,
            t.formatted,
            sent,
        ),
    }
}

/// Carries out a call that only looks at the image.
pub(crate) fn ask(d: Desk, image: &[u8], call: &Question) -> Reply {
    match call {
        Question::Check => d.check(image),
        Question::Assign {
            caller,
            lun,
            descriptor,
            mode,
            at_end,
            offered,
        } => d.assign(image, *caller, *lun, descriptor, *mode, *at_end, *offered),
        Question::Close { caller, lun } => d.close(image, *caller, *lun),
        Question::Rewind { caller, lun } => d.rewind(image, *caller, *lun),
    }
}

/// Reads into the buffer.
pub(crate) fn read(d: Desk, image: &[u8], t: Target, buffer: &mut [u8]) -> Reply {
    d.read(
        image,
        t.caller,
        t.lun,
        t.selector,
        t.number,
        t.formatted,
        buffer,
    )
}
