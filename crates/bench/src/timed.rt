// The functions that bench/search.c times: each search by the bit loop (bench_plain_..) and by the library (bench_..). Every number and
// every length will do. The two of a pair have one statement, so they give the same answers.
ghost use Rattle.std.specs.Prelude.{◌≡◌, ◌-◌, ◌≤◌, length, take, true, false, MatchOption};
ghost use Rattle.numbers.specs.Numbers.{most_sectors};
ghost use Rattle.lists.specs.Parts.{over};
ghost use Rattle.lists.specs.Lists.{range, first, kept};
ghost use Rattle.volume.specs.Sat.{is_free, run_at};
ghost use Rattle.bench.specs.Asked.{is_table, asked, Took};

use crate::plain;
use files::taking;
use lists::parts::{Sector, sector_of};
use numbers::MOST_SECTORS;
use volume::search as library;

// A way of searching the SAT.
pub(crate) trait Search {
    fn free_count(sat: &Sector, t: usize) -> usize
        requires { t ≤ most_sectors }
        ensures { result ≡ length (kept (is_free sat.now) (range 0 t)) };

    fn next_free(sat: &Sector, t: usize, from: usize) -> usize
        requires { t ≤ most_sectors }
        ensures { result ≡ first (is_free sat.now) from (t - from) };

    fn lowest_run(sat: &Sector, t: usize, n: usize) -> usize
        requires { (t ≤ most_sectors) × (1 ≤ n) × (n ≤ most_sectors) }
        ensures { result ≡ first (run_at sat.now t n) 0 t };

    fn lowest_free(sat: &Sector, t: usize, n: usize, out: &mut [u16])
        requires { (t ≤ most_sectors) × (n ≤ length (kept (is_free sat.now) (range 0 t)))
            × (n ≤ length out.old) }
        ensures { out.new ≡ over (take n (kept (is_free sat.now) (range 0 t))) out.old };
}

// Bit by bit.
pub(crate) struct Plain;

impl Search for Plain {
    fn free_count(sat: &Sector, t: usize) -> usize {
        plain::free_count(sat, t)
    }

    fn next_free(sat: &Sector, t: usize, from: usize) -> usize {
        plain::next_free(sat, t, from)
    }

    fn lowest_run(sat: &Sector, t: usize, n: usize) -> usize {
        plain::lowest_run(sat, t, n)
    }

    fn lowest_free(sat: &Sector, t: usize, n: usize, out: &mut [u16]) {
        plain::lowest_free(sat, t, n, out);
    }
}

// As the library does.
pub(crate) struct Library;

impl Search for Library {
    fn free_count(sat: &Sector, t: usize) -> usize {
        library::free_count(sat, t)
    }

    fn next_free(sat: &Sector, t: usize, from: usize) -> usize {
        library::next_free(sat, t, from)
    }

    fn lowest_run(sat: &Sector, t: usize, n: usize) -> usize {
        library::lowest_run(sat, t, n)
    }

    fn lowest_free(sat: &Sector, t: usize, n: usize, out: &mut [u16]) {
        taking::lowest_free(sat, t, n, out);
    }
}

// The table as the searches take it, if it has a table's length and t is at most the sectors of a volume.
fn table_of(sat: &[u8], t: usize) -> Option<&Sector>
    ensures { MatchOption result (is_table sat.now t ≡ false) (λ table. (is_table sat.now t ≡ true) × (table.now ≡ sat.now)) }
{
    if sat.len() == 256 && t <= MOST_SECTORS {
        Some(sector_of(sat, 0))
    } else {
        None
    }
}

fn free_count<S: Search>(sat: &[u8], t: usize) -> usize
    ensures { result ≡ asked sat.now t (length (kept (is_free sat.now) (range 0 t))) }
{
    let Some(table) = table_of(sat, t) else {
        return 0;
    };
    S::free_count(table, t)
}

fn next_free<S: Search>(sat: &[u8], t: usize, from: usize) -> usize
    ensures { result ≡ asked sat.now t (first (is_free sat.now) from (t - from)) }
{
    let Some(table) = table_of(sat, t) else {
        return 0;
    };
    S::next_free(table, t, from)
}

fn lowest_run<S: Search>(sat: &[u8], t: usize, n: usize) -> usize
    ensures { result ≡ asked sat.now t (first (run_at sat.now t n) 0 t) }
{
    let Some(table) = table_of(sat, t) else {
        return 0;
    };
    if n == 0 {
        return 0;
    }
    if n > MOST_SECTORS {
        return t;
    }
    S::lowest_run(table, t, n)
}

fn lowest_free<S: Search>(sat: &[u8], t: usize, n: usize, out: &mut [u16]) -> usize
    ensures { Took sat.now t n out.old result out.new }
{
    let Some(table) = table_of(sat, t) else {
        return 0;
    };
    if out.len() < n || S::free_count(table, t) < n {
        return 0;
    }
    S::lowest_free(table, t, n, out);
    n
}

// Stays: eight exports, since C links each by its name and C has no type parameters; each is one call.

/// How many of the first t sectors are free; 0 of what is no table.
#[unsafe(no_mangle)]
pub extern "C" fn bench_plain_free_count(sat: &[u8], t: usize) -> usize
    ensures { result ≡ asked sat.now t (length (kept (is_free sat.now) (range 0 t))) }
{
    free_count::<Plain>(sat, t)
}

/// The same by the library.
#[unsafe(no_mangle)]
pub extern "C" fn bench_free_count(sat: &[u8], t: usize) -> usize
    ensures { result ≡ asked sat.now t (length (kept (is_free sat.now) (range 0 t))) }
{
    free_count::<Library>(sat, t)
}

/// The lowest free sector from `from` on and below t, or t, or `from` if that is above t; 0 of what is no table.
#[unsafe(no_mangle)]
pub extern "C" fn bench_plain_next_free(sat: &[u8], t: usize, from: usize) -> usize
    ensures { result ≡ asked sat.now t (first (is_free sat.now) from (t - from)) }
{
    next_free::<Plain>(sat, t, from)
}

/// The same by the library.
#[unsafe(no_mangle)]
pub extern "C" fn bench_next_free(sat: &[u8], t: usize, from: usize) -> usize
    ensures { result ≡ asked sat.now t (first (is_free sat.now) from (t - from)) }
{
    next_free::<Library>(sat, t, from)
}

/// The lowest start of n free sectors in a row among the first t, or t; 0 of what is no table.
#[unsafe(no_mangle)]
pub extern "C" fn bench_plain_lowest_run(sat: &[u8], t: usize, n: usize) -> usize
    ensures { result ≡ asked sat.now t (first (run_at sat.now t n) 0 t) }
{
    lowest_run::<Plain>(sat, t, n)
}

/// The same by the library.
#[unsafe(no_mangle)]
pub extern "C" fn bench_lowest_run(sat: &[u8], t: usize, n: usize) -> usize
    ensures { result ≡ asked sat.now t (first (run_at sat.now t n) 0 t) }
{
    lowest_run::<Library>(sat, t, n)
}

/// Stores the n lowest free sectors at the front of `out`, and returns n; stores nothing and returns 0 if fewer are free, if `out` has no
/// room for them, and of what is no table.
#[unsafe(no_mangle)]
pub extern "C" fn bench_plain_lowest_free(sat: &[u8], t: usize, n: usize, out: &mut [u16]) -> usize
    ensures { Took sat.now t n out.old result out.new }
{
    lowest_free::<Plain>(sat, t, n, out)
}

/// The same by the library.
#[unsafe(no_mangle)]
pub extern "C" fn bench_lowest_free(sat: &[u8], t: usize, n: usize, out: &mut [u16]) -> usize
    ensures { Took sat.now t n out.old result out.new }
{
    lowest_free::<Library>(sat, t, n, out)
}
