// A sector of a file moved: the data, the marks and the access block.
ghost use Rattle.std.specs.Prelude.{if◌then◌else◌, ◌≡◌, ◌+◌, ◌*◌, ◌≤◌, ◌<◌, length, leb, is_ok};
ghost use Rattle.numbers.specs.Numbers.{most_sectors, most_segments};
ghost use Rattle.lists.specs.Parts.{sector, put_sector};
ghost use Rattle.volume.specs.Directory.{entry_at};
ghost use Rattle.volume.specs.Sat.{with_bit};
ghost use Rattle.moves.specs.Moves.{rerouted_pairs, relocated};
ghost use Rattle.moves.specs.Code.Shapes.{Movable, Writes, moved_with};

use crate::rerouting::reroute;
use lists::parts::{Sector, at_sector, sector_of};
use ownership::blocks::NoSegment;
use volume::directory::{entry_of, start};
use volume::locate::Layout;
use volume::sat::{Mark, set_bit};

// The bytes b in place of sector s.
#[tactic(auto, unfolding(lists::specs::Parts::put, lists::specs::Parts::put_sector))]
fn put_sector(img: &mut [u8], s: usize, b: &Sector)
    requires { 256 * s + 256 ≤ length img.old }
    ensures { img.new ≡ put_sector s b.now img.old }
{
    img[256 * s..256 * s + 256].copy_from_slice(b);
}

// Sector `from` copied over sector `to`.
fn copy_sector(img: &mut [u8], from: usize, to: usize)
    requires { (256 * from + 256 ≤ length img.old) × (256 * to + 256 ≤ length img.old) }
    ensures { img.new ≡ put_sector to (sector from img.old) img.old }
{
    // Stays: the library's `copy_within` goes byte by byte, up or down; this is two copies of a whole sector.
    let b = *sector_of(img, from);
    put_sector(img, to, &b);
}

// Sector `to` is marked, and then sector `from` is free.
fn swap_marks(sat: &mut [u8], from: usize, to: usize)
    requires { (length sat.old ≡ 256) × (from < most_sectors) × (to < most_sectors) }
    ensures { sat.new ≡ with_bit 0 (with_bit 1 sat.old to) from }
{
    set_bit(sat, to, Mark::Used);
    set_bit(sat, from, Mark::Free);
}

// The same in the table that is sector `sat` of an image.
fn swap_in(img: &mut [u8], sat: usize, from: usize, to: usize)
    requires { (256 * sat + 256 ≤ length img.old) × (from < most_sectors) × (to < most_sectors) }
    ensures { img.new ≡ put_sector sat (with_bit 0 (with_bit 1 (sector sat img.old) to) from) img.old }
{
    at_sector(img, sat, |table| swap_marks(table, from, to));
}

// What a move writes: the data, the marks in the table at sector `sat`, and the access block b in sector s.
fn write_move(img: &mut [u8], sat: usize, s: usize, from: usize, to: usize, b: &Sector)
    requires { Writes img.old sat s from to }
    ensures { img.new ≡ moved_with sat s from to b.now img.old }
{
    copy_sector(img, from, to);
    swap_in(img, sat, from, to);
    put_sector(img, s, b);
}

/// Moves number i of the sequential file in slot k from the sector `from` to the free sector `to`. An error if that takes a 63rd segment:
/// then nothing is written.
pub fn relocate(
    img: &mut [u8],
    p: Layout,
    k: usize,
    i: usize,
    from: usize,
    to: usize,
) -> Result<(), NoSegment>
    requires { Movable img.old p k i from to }
    ensures answer { is_ok result ≡ leb (length (rerouted_pairs img.old (entry_at img.old k) i to)) most_segments }
    ensures image { img.new ≡ (if is_ok result then relocated (entry_at img.old k) i to img.old else img.old) }
{
    let s = start(entry_of(img, p, k));
    let block = reroute(sector_of(img, s), i, to)?;
    write_move(img, p.sat, s, from, to, &block);
    Ok(())
}
