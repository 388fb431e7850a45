// Write: of a contiguous file some sectors, all or nothing; to a sequential one a record after its last.
ghost use Rattle.std.specs.Prelude.{◌≡◌, true, false, ◌<◌, ◌≤◌, length};
ghost use Rattle.numbers.specs.Numbers.{most_moved, record_limit};
ghost use Rattle.volume.specs.Directory.{entry_at, contiguous};
ghost use Rattle.files.specs.Code.Slots.{InUse};
ghost use Rattle.files.specs.Code.Growing.{Adds};
ghost use Rattle.work.specs.Transfers.{as_text};
ghost use Rattle.work.specs.Code.Deeds.{deed, write_deed, store_deed, append_deed};
ghost use Rattle.work.specs.Code.Runs.{crosses};

use crate::codings::{Coding, Plain, Text};
use crate::lengths::odd_length;
use crate::texts::as_text;
use crate::{Refusal, Transfer};
use files::appending::{append, needed_sectors, segments_after};
use files::extent::extent_of;
use files::replace::overwrite;
use numbers::{MOST_SEGMENTS, RECORD_LIMIT};
use ownership::owners::free_sectors;
use volume::directory::{contiguous, entry_of, record_length, size};
use volume::locate::Layout;
use volume::mount::Volume;

// Whether k sectors from number i on start at or past the end of n, or cross it.
#[tactic(auto, using(lists::proofs::Steps::bool_steps, std::proofs::lemmas::Bool::Decides::nat_tests), unfolding(crate::specs::Code::Runs::crosses))]
fn crosses(n: usize, i: usize, k: usize) -> bool
    requires { (n < 65536) × (k ≤ most_moved) }
    ensures { result ≡ crosses n i k }
{
    n <= i || n < i + k
}

// Sectors from number i on, of the contiguous file in a slot.
fn write_run(
    image: &mut [u8],
    p: Layout,
    slot: usize,
    i: usize,
    data: &[u8],
) -> Result<Transfer, Refusal>
    requires { InUse image.old p slot × (contiguous (entry_at image.old slot) ≡ true) }
    ensures { deed result image.new «data».now ≡ write_deed image.old slot i
        false «data».now }
{
    if odd_length(data.len()) {
        return Err(Refusal::BadLength);
    }
    let k = data.len() / 256;
    if crosses(size(entry_of(image, p, slot)), i, k) {
        return Err(Refusal::PastEnd);
    }
    overwrite(image, p, slot, i, data);
    Ok(Transfer {
        // Stays: `as`, here and below: the numbers fit, as is proved, and u32 has no From<usize>.
        bytes: data.len() as u32,
        from: i as u32,
        count: k as u32,
    })
}

// Of a record stored for the data that were sent, if it may be appended as number i and there is room for it.
fn write_next(
    image: &mut [u8],
    p: Layout,
    slot: usize,
    i: usize,
    stored: &[u8],
    data: &[u8],
) -> Result<Transfer, Refusal>
    requires { (i < 4294967296) × Adds image.old p slot stored.now × (length «data».now ≤ record_limit) }
    ensures { deed result image.new «data».now ≡ append_deed image.old slot i stored.now
        «data».now }
{
    if free_sectors(&Volume { img: image, p }) < needed_sectors(image, p, slot, stored) {
        return Err(Refusal::NoRoom);
    }
    if MOST_SEGMENTS < segments_after(image, p, slot, stored) {
        return Err(Refusal::NoSegment);
    }
    append(image, p, slot, stored);
    Ok(Transfer {
        bytes: data.len() as u32,
        from: i as u32,
        count: 1,
    })
}

// Of a record stored for the data that were sent: only the next one can be written.
fn write_stored(
    image: &mut [u8],
    p: Layout,
    slot: usize,
    i: usize,
    stored: &[u8],
    data: &[u8],
) -> Result<Transfer, Refusal>
    requires { Adds image.old p slot stored.now × (length «data».now ≤ record_limit) }
    ensures { deed result image.new «data».now ≡ store_deed image.old slot i stored.now
        «data».now }
{
    let n = extent_of(image, p, slot);
    if n < i {
        return Err(Refusal::PastEnd);
    }
    if i < n {
        return Err(Refusal::Exists);
    }
    write_next(image, p, slot, i, stored, data)
}

// A record of the sequential file in a slot, coded, in a room as long as its coding wants.
fn write_record<C: Coding>(
    image: &mut [u8],
    p: Layout,
    slot: usize,
    i: usize,
    data: &[u8],
    room: &mut [u8],
) -> Result<Transfer, Refusal>
    requires { InUse image.old p slot × (contiguous (entry_at image.old slot) ≡ false)
        × (as_text C.text (entry_at image.old slot) ≡ C.text) × (C.wanted ≤ length room.old) }
    ensures { deed result image.new «data».now ≡ write_deed image.old slot i C.text «data».now }
{
    if !C::may_send(record_length(entry_of(image, p, slot)), data) {
        return Err(Refusal::BadLength);
    }
    let stored = C::store(data, room);
    write_stored(image, p, slot, i, stored, data)
}

/// Writes sectors of the file in a slot, or appends a record to it, from its number i on; to a variable file the data as a text, if that
/// is asked for. Refuses the length or a text's bytes, a target past the end, a record that is there, too few free sectors, and a 63rd
/// segment.
pub fn write(
    image: &mut [u8],
    p: Layout,
    slot: usize,
    i: usize,
    formatted: bool,
    data: &[u8],
) -> Result<Transfer, Refusal>
    requires { InUse image.old p slot }
    ensures { deed result image.new «data».now ≡ write_deed image.old slot i
        formatted «data».now }
{
    if contiguous(entry_of(image, p, slot)) {
        return write_run(image, p, slot, i, data);
    }
    if as_text(image, p, slot, formatted) {
        let mut room = [0u8; RECORD_LIMIT];
        return write_record::<Text>(image, p, slot, i, data, &mut room);
    }
    // Data want no room.
    write_record::<Plain>(image, p, slot, i, data, &mut [])
}
