// The functions that C calls, by the static library front_c. Every area may have any length and hold any bytes; what the caller has to see
// to is said in include/twynarvel.h. Each returns its answer's number of the status table; check, which has no other answer than $00, returns its
// verdict.
ghost use Rattle.std.specs.Prelude.{◌≡◌, [], eqb, not};
ghost use Rattle.desk.specs.Answers.{status};
ghost use Rattle.desk.specs.Calls.{compact, allocate, assign, close, delete};
ghost use Rattle.front.specs.Front.{served, serve, serve_format, serve_check, serve_bring_up, report_after, lent, ended, front};

use crate::reports::write_report;
use crate::verdicts::verdict_of;
use crate::{blocks, desks, requests};
use desk::answers::status_of;
use desk::{Answer, Desk};
use work::Refusal;

// The number that C is told for an answer.
fn number(a: Answer) -> u32
    ensures { result ≡ status a }
{
    u32::from(status_of(a))
}

/// Carries a request block out, for the caller of this number, on the volume of this image: rewind, or a read, write or update whose
/// buffer is a part of the task's own area or of the shared segment. The answer's number goes to the block's byte 4 and its length to bytes
/// $14 to $17. Refuses $84 for a block of another length than 28, which is not written; then $6F for desk bytes that stand for no desk, $82
/// for a code that is not supported, $84 for a part that is not wholly inside its area (transfers only); then in the call's own order.
pub fn twynarvel_iocb(
    block: &mut [u8],
    image: &mut [u8],
    desk: &mut [u8],
    task: &mut [u8],
    shared: &mut [u8],
    caller: u32,
) -> u32
    ensures { ended result (lent block.new image.new desk.new task.new shared.new)
        ≡ front caller (lent block.old image.old desk.old task.old shared.old) }
{
    let Some(asked) = block.as_array() else {
        return number(Err(Refusal::BadLength));
    };
    let a = requests::request(asked, image, desk, task, shared, caller);
    blocks::write_answer(block, a);
    number(a)
}

/// Makes the whole image an empty volume, and the desk bytes an empty desk. Refuses $6F for another length than 192 of the desk bytes,
/// which may be anything; then as the call does.
pub fn twynarvel_format(image: &mut [u8], desk: &mut [u8], id: &[u8], dirs: u32) -> u32
    ensures { served result image.new desk.new
        ≡ serve_format id.now dirs image.old desk.old }
{
    if desk.len() != deskbytes::DESK_BYTES {
        return number(Err(Refusal::NotSound));
    }
    number(desks::keep(Desk::empty().format(image, id, dirs), desk))
}

/// The free sectors of a sound volume and $10000 more; 0 of one that is not sound. Never refuses.
pub fn twynarvel_check(image: &[u8]) -> u32
    ensures { result ≡ serve_check image.now }
{
    verdict_of(Desk::empty().check(image).answer)
}

/// Gives a volume from before there were record counts its counts. Refuses $6F for any other image. It is lent no desk bytes.
pub fn twynarvel_bring_up(image: &mut [u8]) -> u32
    ensures { served result image.new [] ≡ serve_bring_up image.old [] }
{
    number(Desk::empty().bring_up(image).answer)
}

/// Closes the volume up, by at most `quota` sectors moved. If it is carried out and the report has four bytes, they get why it ended (1
/// settled, 2 quota, 3 segments), zero, and the number of sectors moved; a report of another length is not written. Refuses $6F for desk
/// bytes that stand for no desk; then as the call does. The desk bytes stay.
pub fn twynarvel_compact(image: &mut [u8], desk: &[u8], quota: u32, report: &mut [u8]) -> u32
    ensures { (served result image.new desk.now ≡ serve (compact quota) image.old desk.now)
        × (report.new ≡ report_after quota image.old desk.now report.old) }
{
    // Stays: no `serve` here, in allocate and in delete. The image is changed: of a closure that holds it and is not called its bytes would not be known.
    let Ok(d) = desks::unpacked(desk) else {
        return number(Err(Refusal::NotSound));
    };
    let a = d.compact(image, quota).answer;
    write_report(a, report);
    number(a)
}

/// Makes a file with this read-protect code. Refuses $6F for desk bytes that stand for no desk; then as the call does. The desk bytes stay.
pub fn twynarvel_allocate(
    image: &mut [u8],
    desk: &[u8],
    caller: u32,
    desc: &[u8],
    kind: u32,
    size: u32,
    record: u32,
    read_code: u8,
) -> u32
    ensures { served result image.new desk.now
        ≡ serve (allocate caller desc.now kind size «record» read_code) image.old desk.now }
{
    let Ok(d) = desks::unpacked(desk) else {
        return number(Err(Refusal::NotSound));
    };
    let r = d.allocate(image, caller, desc, kind, size, record, read_code);
    number(r.answer)
}

/// Gives a free LUN to a file; `at_end` is 0 for its start, and any other number for its end. The LUN keeps the read-protect code
/// offered. Refuses $6F for desk bytes that stand for no desk; then as the call does.
pub fn twynarvel_assign(
    image: &[u8],
    desk: &mut [u8],
    caller: u32,
    lun: u32,
    desc: &[u8],
    mode: u32,
    at_end: u32,
    offered: u8,
) -> u32
    ensures { served result image.now desk.new
        ≡ serve (assign caller lun desc.now mode (not (eqb at_end 0)) offered) image.now
        desk.old }
{
    number(desks::serve(desk, |d| {
        d.assign(image, caller, lun, desc, mode, at_end != 0, offered)
    }))
}

/// Frees a LUN. Refuses $6F for desk bytes that stand for no desk; then as the call does.
pub fn twynarvel_close(image: &[u8], desk: &mut [u8], caller: u32, lun: u32) -> u32
    ensures { served result image.now desk.new
        ≡ serve (close caller lun) image.now desk.old }
{
    number(desks::serve(desk, |d| d.close(image, caller, lun)))
}

/// Deletes a file. Refuses $6F for desk bytes that stand for no desk; then as the call does. The desk bytes stay.
pub fn twynarvel_delete(image: &mut [u8], desk: &[u8], caller: u32, desc: &[u8]) -> u32
    ensures { served result image.new desk.now
        ≡ serve (delete caller desc.now) image.old desk.now }
{
    let Ok(d) = desks::unpacked(desk) else {
        return number(Err(Refusal::NotSound));
    };
    number(d.delete(image, caller, desc).answer)
}
