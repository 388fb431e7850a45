// A new file: its sectors zero-filled and marked, its entry written.
ghost use Rattle.std.specs.Prelude.{◌≡◌, ◌≤◌};
ghost use Rattle.numbers.specs.Numbers.{most_sectors};
ghost use Rattle.files.specs.Changes.{taken, allocated};
ghost use Rattle.volume.specs.Sat.{lowest_run};
ghost use Rattle.volume.specs.Code.Located.{Located};
ghost use Rattle.files.specs.Code.Room.{Room};

use lists::parts::{sector_of, zero_run};
use volume::directory::put_entry;
use volume::locate::Layout;
use volume::sat::{Mark, set_run_in};
use volume::search::lowest_run;

// The sectors that a new file takes: its own, or one as the access block.
#[tactic(auto, using(std::proofs::lemmas::Bool::Decides::nat_tests), unfolding(crate::specs::Changes::taken))]
fn taken(kind: usize, size: usize) -> usize
    ensures { result ≡ taken kind size }
{
    if kind == 0 { size } else { 1 }
}

/// The lowest start with the wanted sectors all free, or T.
pub fn lowest_start(img: &[u8], p: Layout, kind: usize, size: usize) -> usize
    requires { Located img.now p × (1 ≤ taken kind size) × (taken kind size ≤ most_sectors) }
    ensures { result ≡ lowest_run (taken kind size) img.now }
{
    let n = taken(kind, size);
    lowest_run(sector_of(img, p.sat), p.t, n)
}

// Stays: the kind is the number that the entry has for it, as callers are handed it.
/// Allocates a file of this kind, size, record length and read-protect code in slot at, from sector s on.
pub fn allocate(
    img: &mut [u8],
    p: Layout,
    at: usize,
    desc: &[u8],
    kind: usize,
    size: usize,
    len: usize,
    read_code: u8,
    s: usize,
)
    requires { Room img.old p at desc.now kind size len s }
    ensures { img.new ≡ allocated at desc.now kind size len read_code s img.old }
{
    let n = taken(kind, size);
    zero_run(img, s, n);
    set_run_in(img, p.sat, s, n, Mark::Used);
    put_entry(img, p, at, desc, kind, read_code, len, s, size);
}
