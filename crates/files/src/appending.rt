// Append: what it needs is known before any byte changes; then the new sectors are taken, the record is written after the stream, and the
// entry's record count is one more.
ghost use Rattle.std.specs.Prelude.{◌≡◌, ◌+◌, ◌≤◌, ◌<◌, ◌*◌, length};
ghost use Rattle.numbers.specs.Numbers.{most_sectors};
ghost use Rattle.volume.specs.Directory.{entry_at};
ghost use Rattle.files.specs.Changes.{longer, needed, new_pairs, lengthened, appended};
ghost use Rattle.files.specs.Code.Growing.{Adds, Grows, grown_with, Taking, RecordFits, Takes};
ghost use Rattle.lists.specs.Parts.{in_sectors, sector, put_sector};
ghost use Rattle.volume.specs.Sat.{free, lowest};
ghost use Rattle.volume.specs.Code.Located.{Located};
ghost use Rattle.ownership.specs.Blocks.{pairs, extended_by, block_of, sectors_of};
ghost use Rattle.records.specs.Records.{encoded};
ghost use Rattle.records.specs.Code.Mapped.{written_at};

use crate::map::{map_of, stream_end};
use crate::taking::{extend_all, lowest_free, mark_all, segments_with, zero_all};
use lists::parts::sector_of;
use numbers::{MOST_NEW, MOST_SECTORS};
use ownership::blocks::{set_totals, total};
use records::encoding::{encoded_length, write_record};
use volume::directory::{entry_of, put_count, record_count, record_length, start};
use volume::locate::Layout;

// How long the stream of the file in slot k is with the record r after it.
fn longer_length(img: &[u8], p: Layout, k: usize, r: &[u8]) -> usize
    requires { Adds img.now p k r.now }
    ensures { result ≡ length (longer img.now (entry_at img.now k) r.now) }
{
    let e = entry_of(img, p, k);
    let end = stream_end(img, start(e));
    end + encoded_length(record_length(e), r)
}

/// How many sectors the file in slot k needs beyond its own for the record r after its stream.
pub fn needed_sectors(img: &[u8], p: Layout, k: usize, r: &[u8]) -> usize
    requires { Adds img.now p k r.now }
    ensures { result ≡ needed img.now (entry_at img.now k) r.now }
{
    let n = longer_length(img, p, k, r);
    let f = sector_of(img, start(entry_of(img, p, k)));
    n.div_ceil(256) - total(f)
}

// Stays: a room lent by the caller, since there is no heap here; `MOST_NEW` is the most that one record can need.
// The n lowest free sectors of the volume, as the front of a room that the caller lends.
fn find_lowest<'a>(img: &[u8], p: Layout, n: usize, room: &'a mut [u16]) -> &'a [u16]
    requires { Located img.now p × (n ≤ free img.now) × (n ≤ length room.old) }
    ensures { result.now ≡ lowest n img.now }
{
    lowest_free(sector_of(img, p.sat), p.t, n, room);
    &room[..n]
}

/// How many segments the file in slot k has with the record r after its stream.
pub fn segments_after(img: &[u8], p: Layout, k: usize, r: &[u8]) -> usize
    requires { Adds img.now p k r.now × (needed img.now (entry_at img.now k) r.now ≤ free img.now) }
    ensures { result ≡ length (new_pairs img.now (entry_at img.now k) r.now) }
{
    let n = needed_sectors(img, p, k, r);
    let mut room = [0u16; MOST_NEW];
    let fresh = find_lowest(img, p, n, &mut room);
    segments_with(sector_of(img, start(entry_of(img, p, k))), fresh)
}

// The access block f with these sectors more, for a stream of e bytes.
fn grow(f: &mut [u8], ss: &[u16], e: usize)
    requires { Grows f.old ss.now × (e < 512 * most_sectors) }
    ensures { f.new ≡ block_of (extended_by (pairs f.old) ss.now) (in_sectors e) e }
{
    extend_all(f, ss);
    set_totals(f, e.div_ceil(256), e);
}

fn grow_in(img: &mut [u8], s: usize, ss: &[u16], e: usize)
    requires { (256 * s + 256 ≤ length img.old) × Grows (sector s img.old) ss.now × (e < 512 * most_sectors) }
    ensures { img.new ≡ put_sector s
        (block_of (extended_by (pairs (sector s img.old)) ss.now) (in_sectors e) e) img.old }
{
    // Stays: the part is lent here, since `at_sector` wants a closure that takes any sector, and `grow` takes a sound block alone.
    grow(&mut img[256 * s..256 * s + 256], ss, e);
}

// The new sectors are listed in the access block in sector s, marked in the table, and filled with zeros.
fn take_sectors(img: &mut [u8], sat: usize, s: usize, e: usize, ss: &[u16])
    requires { Taking img.old sat s ss.now × (e < 512 * most_sectors) }
    ensures { img.new ≡ grown_with sat s e ss.now img.old }
{
    grow_in(img, s, ss, e);
    mark_all(img, sat, ss);
    zero_all(img, ss);
}

// The record r, written at place e of the stream whose access block is sector s.
fn write_last(img: &mut [u8], s: usize, e: usize, l: usize, r: &[u8])
    requires { RecordFits img.old s e l r.now }
    ensures { img.new ≡ written_at img.old (sectors_of (sector s img.old)) e
        (encoded l r.now) }
{
    let mut room = [0u16; MOST_SECTORS];
    let map = map_of(img, s, &mut room);
    write_record(img, map, e, l, r);
}

// The sequential file in slot k with the record r after its stream. Its entry stays.
fn lengthen(img: &mut [u8], p: Layout, k: usize, r: &[u8])
    requires { Takes img.old p k r.now }
    ensures { img.new ≡ lengthened (entry_at img.old k) r.now img.old }
{
    let n = needed_sectors(img, p, k, r);
    let e = longer_length(img, p, k, r);
    let entry = entry_of(img, p, k);
    let s = start(entry);
    let l = record_length(entry);
    let end = stream_end(img, s);
    let mut room = [0u16; MOST_NEW];
    let fresh = find_lowest(img, p, n, &mut room);
    take_sectors(img, p.sat, s, e, fresh);
    write_last(img, s, end, l, r);
}

/// Appends the record r to the sequential file in slot k.
pub fn append(img: &mut [u8], p: Layout, k: usize, r: &[u8])
    requires { Takes img.old p k r.now }
    ensures { img.new ≡ appended k r.now img.old }
{
    let n = record_count(entry_of(img, p, k));
    lengthen(img, p, k, r);
    put_count(img, p, k, n + 1);
}
