// The searches in the SAT bit by bit, kept to compare with. Each has the contract of the library's own: volume::search, and files::taking
// for lowest_free.
ghost use Rattle.std.specs.Prelude.{◌≡◌, ◌-◌, ◌≤◌, length, take};
ghost use Rattle.numbers.specs.Numbers.{most_sectors};
ghost use Rattle.lists.specs.Parts.{over};
ghost use Rattle.lists.specs.Lists.{range, first, kept};
ghost use Rattle.volume.specs.Sat.{is_free, run_at};

use lists::parts::Sector;
use volume::sat::marked;

/// How many of the first t sectors are free?
pub fn free_count(sat: &Sector, t: usize) -> usize
    requires { t ≤ most_sectors }
    ensures { result ≡ length (kept (is_free sat.now) (range 0 t)) }
{
    let mut n = 0;
    for i in 0..t {
        if !marked(sat, i) {
            n += 1;
        }
    }
    n
}

/// The lowest free sector from `from` on and below t, or t.
pub fn next_free(sat: &Sector, t: usize, from: usize) -> usize
    requires { t ≤ most_sectors }
    ensures { result ≡ first (is_free sat.now) from (t - from) }
{
    for i in from..t {
        if !marked(sat, i) {
            return i;
        }
    }
    from.max(t)
}

/// The lowest start of n free sectors in a row among the first t, or t, in one pass: each sector from `start` up to i is free.
pub fn lowest_run(sat: &Sector, t: usize, n: usize) -> usize
    requires { (t ≤ most_sectors) × (1 ≤ n) × (n ≤ most_sectors) }
    ensures { result ≡ first (run_at sat.now t n) 0 t }
{
    let mut start = 0;
    let mut i = 0;
    // Stays: the loop's bound moves with the run's start.
    while start + n <= t {
        if i == start + n {
            return start;
        }
        if marked(sat, i) {
            start = i + 1;
        }
        i += 1;
    }
    t
}

/// Stores the n lowest free sectors below t at the front of `out`.
pub fn lowest_free(sat: &Sector, t: usize, n: usize, out: &mut [u16])
    requires { (t ≤ most_sectors) × (n ≤ length (kept (is_free sat.now) (range 0 t)))
        × (n ≤ length out.old) }
    ensures { out.new ≡ over (take n (kept (is_free sat.now) (range 0 t))) out.old }
{
    let mut from = 0;
    for k in 0..n {
        let s = next_free(sat, t, from);
        out[k] = s as u16;
        from = s + 1;
    }
}
