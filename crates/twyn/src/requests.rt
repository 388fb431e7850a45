// Request blocks, carried out by the front for C, which knows numbers and byte areas alone.
use crate::print::Area;
use crate::script::Areas;
use front::gateway::twynarvel_iocb;
use std::fmt;

/// What the front made of a request: its status, and the areas as they are after it, refused or not.
#[derive(Debug, Drop, PartialEq, Eq)]
pub(crate) struct Outcome {
    status: u32,
    areas: Areas,
}

impl Outcome {
    /// Whether the request was carried out.
    pub(crate) fn is_done(&self) -> bool {
        self.status == 0
    }

    /// The status, as it is printed.
    pub(crate) fn number(&self) -> u32 {
        self.status % 256
    }
}

impl fmt::Display for Outcome {
    fn fmt<W: fmt::Write>(&self, f: &mut fmt::Formatter<W>) -> fmt::Result {
        let a = &self.areas;
        write!(
            f,
            "{} {} {}",
            Area(&a.block),
            Area(&a.task),
            Area(&a.shared)
        )
    }
}

/// A request of this caller, with the desk lent as bytes.
pub(crate) fn run(image: &mut [u8], desk: &mut [u8], caller: u32, lent: Areas) -> Outcome {
    let Areas {
        mut block,
        mut task,
        mut shared,
    } = lent;
    let status = twynarvel_iocb(
        block.as_mut_slice(),
        image,
        desk,
        task.as_mut_slice(),
        shared.as_mut_slice(),
        caller,
    );
    Outcome {
        status,
        areas: Areas {
            block,
            task,
            shared,
        },
    }
}
