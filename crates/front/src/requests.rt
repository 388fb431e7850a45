// A request block of 28 bytes, carried out: what is left of the front's rules, then the call.
ghost use Rattle.std.specs.Prelude.{List, ◌≡◌, ℕ, ◌≤◌, length};
ghost use Rattle.deskbytes.specs.DeskBytes.{desk_size};
ghost use Rattle.desk.specs.Desk.{state};
ghost use Rattle.desk.specs.Calls.{read, step};
ghost use Rattle.front.specs.Areas.{area};
ghost use Rattle.front.specs.Code.Orders.{order_of, transfer_of, transfer_call};
ghost use Rattle.front.specs.Code.Spans.{Within, part_of};
ghost use Rattle.front.specs.Code.Passed.{FillsPart, FillsArea, passed, transfer_left, rewind_left, request_left};

use crate::areas::Span;
use crate::blocks::Block;
use crate::{areas, blocks, desks};
use desk::{Answer, Desk, Reply};
use work::Refusal;

/// The functions that move data.
#[derive(Clone, Copy, Debug, PartialEq, Eq)]
pub enum Function {
    Read,
    Write,
    Update,
}

// The transfer of a function code: read, write, or else update.
fn transfer_of(function: u8) -> Function
    ensures { result ≡ transfer_of function }
{
    match function {
        blocks::READ => Function::Read,
        blocks::WRITE => Function::Write,
        _ => Function::Update,
    }
}

/// What a transfer's block asks for, beside its part.
#[derive(Clone, Copy, Debug, PartialEq, Eq)]
pub struct Order {
    pub function: Function,
    pub lun: u32,
    pub sel: u32,
    pub num: u32,
    pub formatted: bool,
}

fn order_of(block: &Block) -> Order
    ensures { result ≡ order_of block.now }
{
    let w = blocks::options(block);
    Order {
        function: transfer_of(blocks::function(block)),
        lun: blocks::lun(block),
        sel: blocks::selector(w),
        num: blocks::number(block),
        formatted: blocks::formatted(w),
    }
}

// Reads into a part of an area.
fn read_at(d: Desk, image: &[u8], caller: u32, o: Order, p: Span, area: &mut [u8]) -> Reply
    requires { (p.from ≤ p.to) × (p.to ≤ length area.old) }
    ensures { FillsPart result
        (step (read caller o.lun o.sel o.num o.formatted (part_of p area.old)) (state image.now d))
        image.now p.from area.old area.new }
{
    let part = &mut area[p.from..p.to];
    d.read(image, caller, o.lun, o.sel, o.num, o.formatted, part)
}

// Reads into the named part of one of the areas. The other one is lent as an empty part, so that it is known to keep every byte; the named
// one is asked for its length after the read, so that it is still lent then and what it holds is known.
fn read(
    d: Desk,
    image: &[u8],
    caller: u32,
    o: Order,
    p: Span,
    task: &mut [u8],
    shared: &mut [u8],
) -> Reply
    requires { Within p task.old shared.old }
    ensures { FillsArea result
        (step (read caller o.lun o.sel o.num o.formatted
        (part_of p (area p.shared task.old shared.old))) (state image.now d))
        image.now p task.old shared.old task.new shared.new }
{
    if p.shared {
        let named = areas::chosen(&mut task[0..0], shared, true);
        let r = read_at(d, image, caller, o, p, named);
        let _n = named.len();
        r
    } else {
        let named = areas::chosen(task, &mut shared[0..0], false);
        let r = read_at(d, image, caller, o, p, named);
        let _n = named.len();
        r
    }
}

// The transfer that is asked for.
fn carry(
    d: Desk,
    image: &mut [u8],
    caller: u32,
    o: Order,
    p: Span,
    task: &mut [u8],
    shared: &mut [u8],
) -> Reply
    requires { Within p task.old shared.old }
    ensures { FillsArea result
        (step (transfer_call caller o (part_of p (area p.shared task.old shared.old)))
        (state image.old d))
        image.new p task.old shared.old task.new shared.new }
{
    match o.function {
        Function::Read => read(d, image, caller, o, p, task, shared),
        Function::Write => {
            let data = areas::part(task, shared, p);
            d.write(image, caller, o.lun, o.sel, o.num, o.formatted, data)
        }
        Function::Update => {
            let data = areas::part(task, shared, p);
            d.update(image, caller, o.lun, o.sel, o.num, o.formatted, data)
        }
    }
}

// A read, a write or an update: the area's rule, and the call.
fn transfer(
    block: &Block,
    image: &mut [u8],
    desk: &mut [u8],
    task: &mut [u8],
    shared: &mut [u8],
    caller: u32,
) -> Answer
    requires { length desk.old ≡ desk_size }
    ensures { passed result image.new desk.new task.new shared.new
        ≡ transfer_left caller block.now image.old desk.old task.old shared.old }
{
    let start = blocks::start(block);
    let end = blocks::end(block);
    if !areas::inside(start, end, task, shared) {
        return Err(Refusal::BadLength);
    }
    let d = desks::open(desk);
    let o = order_of(block);
    let p = areas::span_of(start, end);
    let r = carry(d, image, caller, o, p, task, shared);
    desks::keep(r, desk)
}

fn rewind(block: &Block, image: &[u8], desk: &mut [u8], caller: u32) -> Answer
    requires { length desk.old ≡ desk_size }
    ensures { (t s : List ℕ) → passed result image.now desk.new t s
        ≡ rewind_left caller block.now image.now desk.old t s }
{
    let d = desks::open(desk);
    desks::keep(d.rewind(image, caller, blocks::lun(block)), desk)
}

/// A block of 28 bytes: desk bytes and code are judged, and then it is carried out.
pub(crate) fn request(
    block: &Block,
    image: &mut [u8],
    desk: &mut [u8],
    task: &mut [u8],
    shared: &mut [u8],
    caller: u32,
) -> Answer
    ensures { passed result image.new desk.new task.new shared.new
        ≡ request_left caller block.now image.old desk.old task.old shared.old }
{
    // Stays: no `serve`. A closure would hold the image and both areas, and if it is not called their bytes would not be known.
    if !deskbytes::in_form(desk) {
        return Err(Refusal::NotSound);
    }
    if blocks::is_transfer(block) {
        return transfer(block, image, desk, task, shared, caller);
    }
    if blocks::is_rewind(block) {
        return rewind(block, image, desk, caller);
    }
    Err(Refusal::BadRequest)
}
