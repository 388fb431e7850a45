// The map of a sequential file's logical sectors, filled once from its access block; and how long its stream is.
ghost use Rattle.std.specs.Prelude.{◌≡◌, ◌+◌, ◌≤◌, ◌<◌, ◌*◌, length, true};
ghost use Rattle.numbers.specs.Numbers.{most_sectors};
ghost use Rattle.lists.specs.Parts.{put, over, sector};
ghost use Rattle.lists.specs.Lists.{range};
ghost use Rattle.ownership.specs.Blocks.{total, sectors_of, block_sound, stream_length};
ghost use Rattle.files.specs.Code.Opens.{Opens};

use lists::parts::sector_of;
use numbers::MOST_SECTORS;
use ownership::blocks::{Segment, pairs, stream_length};

// The n sectors from s on, at place `at` of the map.
fn fill_run(map: &mut [u16], at: usize, s: usize, n: usize)
    requires { (at + n ≤ length map.old) × (s + n ≤ 65536) }
    ensures { map.new ≡ put at (range s n) map.old }
{
    // Stays: by index, since no law tells what a list holds after a walk of `iter_mut` over a part of it.
    for i in 0..n {
        map[at + i] = (s + i) as u16;
    }
}

/// Fills the map's first places with the logical sectors of the access block f, and answers how many they are.
pub fn fill_map(f: &[u8], map: &mut [u16]) -> usize
    requires { (length f.now ≡ 256) × (block_sound most_sectors f.now ≡ true) × (total f.now ≤ length map.old) }
    ensures { (result ≡ length (sectors_of f.now))
        × (map.new ≡ over (sectors_of f.now) map.old) }
{
    let mut at = 0;
    for pair in pairs(f) {
        let Segment { start, length } = Segment::of(pair);
        fill_run(map, at, start, length);
        at += length;
    }
    at
}

// The same of the access block in sector s, into a map that holds as many as a volume has.
fn load_map(img: &[u8], s: usize, map: &mut [u16]) -> usize
    requires { Opens img.now s × (most_sectors ≤ length map.old) }
    ensures { (result ≡ length (sectors_of (sector s img.now)))
        × (map.new ≡ over (sectors_of (sector s img.now)) map.old) }
{
    fill_map(sector_of(img, s), map)
}

// Stays: a room of the most that there can be, lent by the caller, since there is no heap here.
/// The logical sectors of the access block in sector s, as the front of a room that the caller lends: a map is too large to be handed on by value.
pub fn map_of<'a>(img: &[u8], s: usize, room: &'a mut [u16; MOST_SECTORS]) -> &'a [u16]
    requires { Opens img.now s }
    ensures { result.now ≡ sectors_of (sector s img.now) }
{
    let n = load_map(img, s, room);
    &room[..n]
}

/// The stream length E of the access block in sector s.
pub fn stream_end(img: &[u8], s: usize) -> usize
    requires { 256 * s + 256 ≤ length img.now }
    ensures { (result ≡ stream_length (sector s img.now)) × (result < 4294967296) }
{
    stream_length(sector_of(img, s))
}
