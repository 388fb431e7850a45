// Bytes, words and parts of a lent image.
#![tactic(auto, unfolding(crate::specs::Parts::part, crate::specs::Parts::sector, crate::specs::Parts::put, crate::specs::Parts::over, crate::specs::Parts::blanks))]

ghost use Rattle.std.specs.Prelude.{◌≡◌, ◌<◌, ◌+◌, ◌*◌, ◌≤◌, length, replicate, List, ℕ};
ghost use Rattle.std.specs.Fn.{FnOnceReturnsAtMut};
ghost use Rattle.lists.specs.Parts.{word, long, bytes2, bytes4, put, blanks, zeros, over, sector, part, put_sector};

// Stays: numbers are read and written at a place of a slice, since parts of an image are lent as slices; the bound beside a value is what a
// sum of such values rests on, which `usize` does not tell.
/// The big-endian word at i.
pub fn word_at(s: &[u8], i: usize) -> usize
    requires { i + 2 ≤ length s.now }
    ensures { (result ≡ word s.now i) × (result < 65536) }
{
    usize::from(u16::from_be_bytes([s[i], s[i + 1]]))
}

/// The number of the four bytes at i, the highest first.
pub fn long_at(s: &[u8], i: usize) -> usize
    requires { i + 4 ≤ length s.now }
    ensures { (result ≡ long s.now i) × (result < 4294967296) }
{
    // Stays: `as`, since `usize::from` takes no u32.
    u32::from_be_bytes([s[i], s[i + 1], s[i + 2], s[i + 3]]) as usize
}

/// Writes v at i as two bytes, the higher first.
pub fn put_word(s: &mut [u8], i: usize, v: usize)
    requires { (i + 2 ≤ length s.old) × (v < 65536) }
    ensures { s.new ≡ put i (bytes2 v) s.old }
{
    // Stays: `as`, here and in `put_long`: v fits, and `try_from` has an error that no call could meet.
    s[i..i + 2].copy_from_slice(&(v as u16).to_be_bytes());
}

/// Writes v at i as four bytes, the highest first.
pub fn put_long(s: &mut [u8], i: usize, v: usize)
    requires { (i + 4 ≤ length s.old) × (v < 4294967296) }
    ensures { s.new ≡ put i (bytes4 v) s.old }
{
    s[i..i + 4].copy_from_slice(&(v as u32).to_be_bytes());
}

/// Makes every byte of a part v.
pub fn fill(part: &mut [u8], v: u8)
    ensures { part.new ≡ replicate (length part.old) v }
{
    part.fill(v);
}

/// Zeroes a part.
pub fn clear(part: &mut [u8])
    ensures { part.new ≡ blanks (length part.old) }
{
    fill(part, 0);
}

/// Whether every byte is zero.
// Stays: an OR over all bytes, which the compiler makes of many at once: `.all(|b| *b == 0)` is 17 times slower.
#[tactic(auto, using(crate::proofs::OredBytes::ored_rules))]
pub fn all_zero(s: &[u8]) -> bool
    ensures { result ≡ zeros s.now }
{
    let mut any: u8 = 0;
    for b in s {
        any |= *b;
    }
    any == 0
}

/// Copies src over the first bytes of a part.
pub fn copy_in(part: &mut [u8], src: &[u8])
    requires { length src.now ≤ length part.old }
    ensures { part.new ≡ over src.now part.old }
{
    part[..src.len()].copy_from_slice(src);
}

/// A sector's 256 bytes.
pub type Sector = [u8; 256];

/// Sector s of an image.
#[tactic(auto, using(crate::proofs::Sectors::sector_at))]
pub fn sector_of(img: &[u8], s: usize) -> &Sector
    requires { 256 * s + 256 ≤ length img.now }
    ensures { result.now ≡ sector s img.now }
{
    &img.as_chunks::<256>().0[s]
}

/// Changes sector s of an image by `f`.
pub fn at_sector<F: FnOnce(&mut [u8])>(img: &mut [u8], s: usize, f: F)
    requires inside { 256 * s + 256 ≤ length img.old }
    requires callable { (b : _) → length b.now ≡ 256 → F.pre f b }
    ensures { (w : List ℕ) × FnOnceReturnsAtMut F.FnOnce f (sector s img.old) tt w × (length w ≡ 256) × (img.new ≡ put_sector s w img.old) }
{
    f(&mut img[256 * s..256 * s + 256]);
}

/// Zeroes n sectors from s on.
pub fn zero_run(img: &mut [u8], s: usize, n: usize)
    requires { 256 * s + 256 * n ≤ length img.old }
    ensures { img.new ≡ put (256 * s) (blanks (256 * n)) img.old }
{
    clear(&mut img[256 * s..256 * s + 256 * n]);
}

/// Copies n consecutive sectors from `start` on.
pub fn read_sectors(img: &[u8], start: usize, n: usize, buf: &mut [u8])
    requires { (256 * start + 256 * n ≤ length img.now) × (256 * n ≤ length buf.old) }
    ensures { buf.new ≡ over (part (256 * start) (256 * n) img.now) buf.old }
{
    copy_in(buf, &img[256 * start..256 * start + 256 * n]);
}
