// Sectors that a file takes: the lowest free ones, marked, zero-filled, and listed in its access block.
ghost use Rattle.std.specs.Prelude.{if◌then◌else◌, ◌≡◌, ◌+◌, ◌≤◌, ◌<◌, ◌*◌, length, take, true, ltb, []};
ghost use Rattle.numbers.specs.Numbers.{most_sectors};
ghost use Rattle.lists.specs.Parts.{over, sector, put_sector};
ghost use Rattle.lists.specs.Lists.{range, kept, all};
ghost use Rattle.volume.specs.Sat.{is_free, with_bits};
ghost use Rattle.records.specs.Streams.{laid};
ghost use Rattle.records.specs.Code.Mapped.{Mapped};
ghost use Rattle.ownership.specs.Blocks.{pairs, extended_by};
ghost use Rattle.files.specs.Code.Growing.{Grows, next_after};
ghost use Rattle.ownership.specs.Code.Shapes.{BlockShaped, with_pairs};

use lists::parts::{Sector, at_sector, zero_run};
use ownership::blocks::{Segment, extend, pairs, segments};
use volume::sat::{Mark, set_bit};
use volume::search::next_free;

/// Stores the n lowest free sectors below t at the front of `out`.
pub fn lowest_free(sat: &Sector, t: usize, n: usize, out: &mut [u16])
    requires { (t ≤ most_sectors) × (n ≤ length (kept (is_free sat.now) (range 0 t)))
        × (n ≤ length out.old) }
    ensures { out.new ≡ over (take n (kept (is_free sat.now) (range 0 t))) out.old }
{
    let mut from = 0;
    // Stays: by index, since no law tells what a list holds after a walk of `iter_mut` over its front.
    for k in 0..n {
        let s = next_free(sat, t, from);
        out[k] = s as u16;
        from = s + 1;
    }
}

fn mark_each(sat: &mut [u8], ss: &[u16])
    requires { (length sat.old ≡ 256) × (all (λ s. ltb s most_sectors) ss.now ≡ true) }
    ensures { sat.new ≡ with_bits 1 sat.old ss.now }
{
    for s in ss {
        set_bit(sat, usize::from(*s), Mark::Used);
    }
}

/// Marks the sectors in the table at sector `sat` of the image.
pub fn mark_all(img: &mut [u8], sat: usize, ss: &[u16])
    requires { (256 * sat + 256 ≤ length img.old) × (all (λ s. ltb s most_sectors) ss.now ≡ true) }
    ensures { img.new ≡ put_sector sat (with_bits 1 (sector sat img.old) ss.now) img.old }
{
    at_sector(img, sat, |table| mark_each(table, ss));
}

/// Fills each of the sectors with zeros.
pub fn zero_all(img: &mut [u8], ss: &[u16])
    requires { Mapped img.old ss.now }
    ensures { img.new ≡ laid ss.now [] img.old }
{
    for s in ss {
        zero_run(img, usize::from(*s), 1);
    }
}

/// Lists the sectors in the access block f, one after the other.
pub fn extend_all(f: &mut [u8], ss: &[u16])
    requires { Grows f.old ss.now }
    ensures { f.new ≡ with_pairs f.old (extended_by (pairs f.old) ss.now) }
{
    for s in ss {
        extend(f, usize::from(*s));
    }
}

// The sector after the last segment, if there is one.
fn next_after(f: &[u8]) -> Option<usize>
    requires { BlockShaped f.now }
    ensures { result ≡ next_after (pairs f.now) }
{
    let last = Segment::of(pairs(f).last()?);
    Some(last.start + last.length)
}

/// How many segments the access block f would have with these sectors more.
pub fn segments_with(f: &[u8], ss: &[u16]) -> usize
    requires { BlockShaped f.now × (length ss.now ≤ most_sectors) }
    ensures { result ≡ length (extended_by (pairs f.now) ss.now) }
{
    let mut n = segments(f);
    let mut next = next_after(f);
    for s in ss {
        let s = usize::from(*s);
        if next != Some(s) {
            n += 1;
        }
        next = Some(s + 1);
    }
    n
}
