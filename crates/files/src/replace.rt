// Bytes of a file written in place: a record's data through its stream, a contiguous file's sectors.
ghost use Rattle.std.specs.Prelude.{length, ◌≡◌, true, false, ◌+◌, ◌≤◌, ◌*◌};
ghost use Rattle.lists.specs.Parts.{sector};
ghost use Rattle.lists.specs.Lists.{distinct};
ghost use Rattle.ownership.specs.Blocks.{stream_length, sectors_of};
ghost use Rattle.files.specs.Code.Opens.{Opens, rewritten_at};
ghost use Rattle.volume.specs.Directory.{entry_at, contiguous, size};
ghost use Rattle.files.specs.Changes.{overwritten};
ghost use Rattle.files.specs.Code.Slots.{InUse};
ghost use Rattle.files.specs.Code.Outcomes.{replaced_of, replaced_in};

use crate::extent::record_of;
use crate::map::map_of;
use numbers::MOST_SECTORS;
use records::chunks::write_stream;
use volume::directory::{entry_of, start};
use volume::locate::Layout;

/// Why a record is not replaced: there is none of that number, or it has another length.
#[derive(Clone, Copy, Debug, PartialEq, Eq)]
pub enum ReplaceError {
    PastEnd,
    OtherLength,
}

// Into the stream of the access block in sector s.
fn write_at(img: &mut [u8], s: usize, from: usize, src: &[u8])
    requires { Opens img.old s × (distinct (sectors_of (sector s img.old)) ≡ true)
        × (from + length src.now ≤ stream_length (sector s img.old)) }
    ensures { img.new ≡ rewritten_at img.old s from src.now }
{
    let mut room = [0u16; MOST_SECTORS];
    let map = map_of(img, s, &mut room);
    write_stream(img, map, from, src);
}

/// Replaces record i of the sequential file in slot k by one as long; else nothing is written.
pub fn update_record(
    img: &mut [u8],
    p: Layout,
    k: usize,
    i: usize,
    src: &[u8],
) -> Result<(), ReplaceError>
    requires { InUse img.old p k × (contiguous (entry_at img.old k) ≡ false) }
    ensures { (result ≡ replaced_of img.old (entry_at img.old k) i (length src.now))
        × (img.new ≡ replaced_in (entry_at img.old k) i src.now img.old) }
{
    let Some(spot) = record_of(img, p, k, i) else {
        return Err(ReplaceError::PastEnd);
    };
    if src.len() != spot.len {
        return Err(ReplaceError::OtherLength);
    }
    write_at(img, start(entry_of(img, p, k)), spot.from, src);
    Ok(())
}

/// Writes whole sectors of the contiguous file in slot k, from its sector i on.
pub fn overwrite(img: &mut [u8], p: Layout, k: usize, i: usize, src: &[u8])
    requires { InUse img.old p k × (contiguous (entry_at img.old k) ≡ true)
        × (256 * i + length src.now ≤ 256 * size (entry_at img.old k)) }
    ensures { img.new ≡ overwritten (entry_at img.old k) i src.now img.old }
{
    let at = 256 * (start(entry_of(img, p, k)) + i);
    img[at..at + src.len()].copy_from_slice(src);
}
