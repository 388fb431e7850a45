// Searches of the sector allocation table: the lowest free sector, the lowest free run, and how many are free. They go by bytes and by
// quads of eight bytes, and answer what a search bit by bit answers.
ghost use Rattle.std.specs.Prelude.{◌≡◌, ◌-◌, ◌≤◌, ◌<◌, ◌*◌, length, sum_by};
ghost use Rattle.numbers.specs.Numbers.{most_sectors};
ghost use Rattle.lists.specs.Lists.{range, first, kept};
ghost use Rattle.volume.specs.Sat.{is_free, run_at};
ghost use Rattle.volume.specs.Code.Searches.{Passed, clear_bits};

use crate::quads::{clear_count, first_clear, first_row, first_set, quad_at, set_count, set_end};
use lists::parts::Sector;

// From byte q on past every quad of which all eight bytes are 255.
fn past_quads(sat: &Sector, q: usize) -> usize
    requires { q ≤ 256 }
    ensures { Passed sat.now q result }
{
    if q % 8 != 0 {
        return q;
    }
    for j in q / 8..32 {
        if quad_at(sat, j) != usize::MAX {
            return 8 * j;
        }
    }
    256
}

// Stays: t for none, here and below: a caller compares the place with the volume's end.
/// The lowest free sector from `from` on and below t, or t.
pub fn next_free(sat: &Sector, t: usize, from: usize) -> usize
    requires { t ≤ most_sectors }
    ensures { result ≡ first (is_free sat.now) from (t - from) }
{
    if t <= from {
        return from;
    }
    let mut i = from;
    // Stays: each turn goes on past all quads that are full.
    while i < t {
        let q = i / 8;
        let k = first_clear(sat[q], i % 8);
        if k < 8 {
            return (8 * q + k).min(t);
        }
        i = 8 * past_quads(sat, q + 1);
    }
    t
}

/// The lowest start of n free sectors in a row among the first t, or t, quad by quad: each sector from `start` up to i is free, and no run
/// starts before it.
pub fn lowest_run(sat: &Sector, t: usize, n: usize) -> usize
    requires { (t ≤ most_sectors) × (1 ≤ n) × (n ≤ most_sectors) }
    ensures { result ≡ first (run_at sat.now t n) 0 t }
{
    let mut start = 0;
    let mut i = 0;
    // Stays: `start` moves with each quad, to behind its last mark.
    while start + n <= t {
        let marks = quad_at(sat, i / 64);
        if start + n <= i + first_set(marks) {
            return start;
        }
        let k = first_row(!marks, n);
        if k < 64 {
            if i + k + n <= t {
                return i + k;
            }
            return t;
        }
        let next = i + 64;
        let end = set_end(marks);
        if end != 0 {
            start = i + end;
        }
        i = next;
    }
    t
}

// How many bits of some bytes are clear.
fn clear_total(bytes: &[u8]) -> u32
    requires { length bytes.now ≤ 256 }
    ensures { result ≡ sum_by clear_bits bytes.now }
{
    bytes.iter().map(|b| clear_count(*b)).sum()
}

/// How many of the first t sectors are free? Counted in 32 bits, so that the compiler counts more bytes at once.
pub fn free_count(sat: &Sector, t: usize) -> usize
    requires { t ≤ most_sectors }
    ensures { result ≡ length (kept (is_free sat.now) (range 0 t)) }
{
    let whole = t / 8;
    let n = clear_total(&sat[..whole]);
    if t % 8 == 0 {
        return n as usize;
    }
    (n + set_count(!sat[whole], t % 8)) as usize
}
