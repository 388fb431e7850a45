// Read: of a contiguous file some sectors, of a sequential one a record.
ghost use Rattle.std.specs.Prelude.{◌≡◌, false, ◌+◌, ◌*◌, ◌≤◌, length};
ghost use Rattle.numbers.specs.Numbers.{most_sectors};
ghost use Rattle.volume.specs.Directory.{entry_at, contiguous};
ghost use Rattle.files.specs.Code.Slots.{InUse};
ghost use Rattle.work.specs.Transfers.{as_text};
ghost use Rattle.work.specs.Code.Deeds.{deed, read_deed};
ghost use Rattle.work.specs.Code.Runs.{read_run};

use crate::codings::{Coding, Plain, Text};
use crate::lengths::{fewer, odd_length};
use crate::texts::as_text;
use crate::{Refusal, Transfer};
use files::extent::record_of;
use files::map::map_of;
use lists::parts::read_sectors;
use numbers::MOST_SECTORS;
use records::stream::Stream;
use volume::directory::{contiguous, entry_of, size, start};
use volume::locate::Layout;

// From number i on, of the n sectors that start at s.
fn read_run(
    image: &[u8],
    s: usize,
    n: usize,
    i: usize,
    buffer: &mut [u8],
) -> Result<Transfer, Refusal>
    requires { (s + n ≤ most_sectors) × (256 * (s + n) ≤ length image.now) }
    ensures { deed result image.now buffer.new ≡ read_run image.now s n i buffer.old }
{
    if odd_length(buffer.len()) {
        return Err(Refusal::BadLength);
    }
    if n <= i {
        return Err(Refusal::PastEnd);
    }
    let k = fewer(n, i, buffer.len() / 256);
    read_sectors(image, s + i, k, buffer);
    Ok(Transfer {
        // Stays: `as`, here and below: the numbers fit, as is proved, and u32 has no From<usize>.
        bytes: (256 * k) as u32,
        from: i as u32,
        count: k as u32,
    })
}

// Record i of the sequential file in a slot, decoded.
fn read_coded<C: Coding>(
    image: &[u8],
    p: Layout,
    slot: usize,
    i: usize,
    buffer: &mut [u8],
) -> Result<Transfer, Refusal>
    requires { InUse image.now p slot × (contiguous (entry_at image.now slot) ≡ false)
        × (as_text C.text (entry_at image.now slot) ≡ C.text) }
    ensures { deed result image.now buffer.new ≡ read_deed image.now (entry_at image.now slot) i C.text buffer.old }
{
    let spot = record_of(image, p, slot, i).ok_or(Refusal::PastEnd)?;
    let mut room = [0u16; MOST_SECTORS];
    let map = map_of(image, start(entry_of(image, p, slot)), &mut room);
    let n = C::hand_over(&Stream { img: image, map }, spot.from, spot.len, buffer)?;
    Ok(Transfer {
        bytes: n as u32,
        from: i as u32,
        count: 1,
    })
}

/// Reads sectors or a record of the file in a slot into the buffer, from its number i on; a variable record as its text, if that is
/// asked for. Refuses a buffer that sectors do not fill, a target past the end, and a buffer shorter than what is handed over.
pub fn read(
    image: &[u8],
    p: Layout,
    slot: usize,
    i: usize,
    formatted: bool,
    buffer: &mut [u8],
) -> Result<Transfer, Refusal>
    requires { InUse image.now p slot }
    ensures { deed result image.now buffer.new ≡ read_deed image.now (entry_at image.now slot) i
        formatted buffer.old }
{
    let e = entry_of(image, p, slot);
    if contiguous(e) {
        return read_run(image, start(e), size(e), i, buffer);
    }
    if as_text(image, p, slot, formatted) {
        return read_coded::<Text>(image, p, slot, i, buffer);
    }
    read_coded::<Plain>(image, p, slot, i, buffer)
}
