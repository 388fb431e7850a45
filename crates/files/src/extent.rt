// How far a file goes, and where its records are, by its directory slot.
ghost use Rattle.std.specs.Prelude.{◌≡◌, true, false, ◌≤◌};
ghost use Rattle.records.specs.Code.Spots.{spot_of};
ghost use Rattle.records.specs.Records.{whole_records};
ghost use Rattle.files.specs.Files.{stream, extent};
ghost use Rattle.files.specs.Code.Opens.{Opens, stream_at};
ghost use Rattle.numbers.specs.Numbers.{record_limit};
ghost use Rattle.volume.specs.Directory.{entry_at, contiguous, record_length};
ghost use Rattle.files.specs.Code.Slots.{InUse};

use crate::map::{map_of, stream_end};
use numbers::MOST_SECTORS;
use records::record::Extent;
use records::stream::Stream;
use volume::directory::{contiguous, entry_of, record_count, record_length, size, start};
use volume::locate::Layout;

fn find_stream(img: &[u8], s: usize, l: usize, i: usize) -> Option<Extent>
    requires { Opens img.now s × (l ≤ record_limit) × (whole_records l (stream_at img.now s) ≡ true) }
    ensures { result ≡ spot_of l (stream_at img.now s) i }
{
    let mut room = [0u16; MOST_SECTORS];
    let map = map_of(img, s, &mut room);
    Stream { img, map }.find(l, stream_end(img, s), i)
}

/// How far the file in slot k goes: in sectors if contiguous, in records if sequential. No record is looked at: on a sound volume the
/// entry has their number.
pub fn extent_of(img: &[u8], p: Layout, k: usize) -> usize
    requires { InUse img.now p k }
    ensures { result ≡ extent img.now (entry_at img.now k) }
{
    let e = entry_of(img, p, k);
    if contiguous(e) {
        size(e)
    } else {
        record_count(e)
    }
}

/// Where in its stream the data of record i of the sequential file in slot k lies.
pub fn record_of(img: &[u8], p: Layout, k: usize, i: usize) -> Option<Extent>
    requires { InUse img.now p k × (contiguous (entry_at img.now k) ≡ false) }
    ensures { result ≡ spot_of (record_length (entry_at img.now k))
        (stream img.now (entry_at img.now k)) i }
{
    let e = entry_of(img, p, k);
    if record_count(e) <= i {
        return None;
    }
    find_stream(img, start(e), record_length(e), i)
}
