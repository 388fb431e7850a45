// Update: a record of a sequential file is replaced by one that is stored in the same length.
ghost use Rattle.std.specs.Prelude.{◌≡◌, false, ◌≤◌, length};
ghost use Rattle.numbers.specs.Numbers.{record_limit};
ghost use Rattle.volume.specs.Directory.{entry_at, contiguous};
ghost use Rattle.files.specs.Code.Slots.{InUse};
ghost use Rattle.work.specs.Transfers.{as_text};
ghost use Rattle.work.specs.Code.Deeds.{deed, update_deed, replace_deed};

use crate::codings::{Coding, Plain, Text};
use crate::texts::as_text;
use crate::{Refusal, Transfer};
use files::replace::update_record;
use numbers::RECORD_LIMIT;
use volume::directory::{contiguous, entry_of, record_length};
use volume::locate::Layout;

// Record i by one that is stored for the data that were sent.
fn replace_by(
    image: &mut [u8],
    p: Layout,
    slot: usize,
    i: usize,
    stored: &[u8],
    data: &[u8],
) -> Result<Transfer, Refusal>
    requires { InUse image.old p slot × (contiguous (entry_at image.old slot) ≡ false) × (length «data».now ≤ record_limit) }
    ensures { deed result image.new «data».now ≡ replace_deed image.old
        (entry_at image.old slot) i stored.now «data».now }
{
    update_record(image, p, slot, i, stored)?;
    Ok(Transfer {
        // Stays: `as`, here and below: the numbers fit, as is proved, and u32 has no From<usize>.
        bytes: data.len() as u32,
        from: i as u32,
        count: 1,
    })
}

// Stays: as `write_record` but for its last line, which replaces where that one appends: a closure would hold the image.
// Record i by the data that were sent, coded, in a room as long as their coding wants.
fn update_coded<C: Coding>(
    image: &mut [u8],
    p: Layout,
    slot: usize,
    i: usize,
    data: &[u8],
    room: &mut [u8],
) -> Result<Transfer, Refusal>
    requires { InUse image.old p slot × (contiguous (entry_at image.old slot) ≡ false)
        × (as_text C.text (entry_at image.old slot) ≡ C.text) × (C.wanted ≤ length room.old) }
    ensures { deed result image.new «data».now ≡ update_deed image.old
        (entry_at image.old slot) i C.text «data».now }
{
    if !C::may_send(record_length(entry_of(image, p, slot)), data) {
        return Err(Refusal::BadLength);
    }
    let stored = C::store(data, room);
    replace_by(image, p, slot, i, stored, data)
}

/// Replaces record i of the file in a slot by one that is stored in the same length; in a variable file by the data as a text, if that
/// is asked for. Refuses a contiguous file, the length or a text's bytes, a target past the end, and another length.
pub fn update(
    image: &mut [u8],
    p: Layout,
    slot: usize,
    i: usize,
    formatted: bool,
    data: &[u8],
) -> Result<Transfer, Refusal>
    requires { InUse image.old p slot }
    ensures { deed result image.new «data».now ≡ update_deed image.old
        (entry_at image.old slot) i formatted «data».now }
{
    if contiguous(entry_of(image, p, slot)) {
        return Err(Refusal::BadRequest);
    }
    if as_text(image, p, slot, formatted) {
        let mut room = [0u8; RECORD_LIMIT];
        return update_coded::<Text>(image, p, slot, i, data, &mut room);
    }
    // Data want no room.
    update_coded::<Plain>(image, p, slot, i, data, &mut [])
}
