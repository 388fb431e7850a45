// The sector allocation table: its bits, and runs of them marked and freed.
ghost use Rattle.std.specs.Prelude.{◌≡◌, ◌-◌, ◌/◌, ◌%◌, ◌^◌, ◌<◌, ◌*◌, ◌+◌, ◌≤◌, eqb, length};
ghost use Rattle.numbers.specs.Numbers.{most_sectors};
ghost use Rattle.lists.specs.Parts.{sector, put_sector};
ghost use Rattle.volume.specs.Sat.{marked, with_bit, with_bits};
ghost use Rattle.volume.specs.Code.Marks.{bit_of};
ghost use Rattle.lists.specs.Lists.{range, same};

use lists::parts::{Sector, at_sector, fill};

/// What becomes of a sector, by its bit: free is 0, used is 1.
#[derive(Clone, Copy, Debug, PartialEq, Eq)]
pub enum Mark {
    Free,
    Used,
}

impl Mark {
    // Eight such bits.
    fn byte(self) -> u8
        ensures { result ≡ 255 * bit_of self }
    {
        match self {
            Mark::Used => 255,
            Mark::Free => 0,
        }
    }
}

// Bit k of a byte, counted from the top.
fn bit(b: u8, k: usize) -> bool
    requires { k < 8 }
    ensures { result ≡ eqb (b / 2 ^ (7 - k) % 2) 1 }
{
    (b >> (7 - k)) % 2 == 1
}

// A byte with its bit k used or free.
#[tactic(auto, using(crate::proofs::BitShifts::bit_set, crate::proofs::BitShifts::bit_cleared))]
fn with_mark(b: u8, k: usize, mark: Mark) -> u8
    requires { k < 8 }
    ensures { result ≡ b - b / 2 ^ (7 - k) % 2 * 2 ^ (7 - k) + bit_of mark * 2 ^ (7 - k) }
{
    let bit = 1 << (7 - k);
    match mark {
        Mark::Used => b | bit,
        Mark::Free => b & !bit,
    }
}

/// Is sector s marked?
#[tactic(auto, unfolding(crate::specs::Sat::marked))]
pub fn marked(sat: &Sector, s: usize) -> bool
    requires { s < most_sectors }
    ensures { result ≡ marked sat.now s }
{
    bit(sat[s / 8], s % 8)
}

/// Makes sector s used or free.
#[tactic(auto, unfolding(crate::specs::Sat::with_bit))]
pub fn set_bit(sat: &mut [u8], s: usize, mark: Mark)
    requires { (length sat.old ≡ 256) × (s < most_sectors) }
    ensures { sat.new ≡ with_bit (bit_of mark) sat.old s }
{
    sat[s / 8] = with_mark(sat[s / 8], s % 8, mark);
}

// Makes n sectors from s on used or free, one by one.
#[tactic(auto, using(crate::proofs::SatRuns::with_bits_more, crate::proofs::SatRuns::with_bits_end))]
fn set_bits(sat: &mut [u8], s: usize, n: usize, mark: Mark)
    requires { (length sat.old ≡ 256) × (s + n ≤ most_sectors) }
    ensures { sat.new ≡ with_bits (bit_of mark) sat.old (range s n) }
{
    for i in s..s + n {
        set_bit(sat, i, mark);
    }
}

/// Makes n sectors from s on used or free: the bytes that they fill at once, the others bit by bit.
pub fn set_run(sat: &mut [u8], s: usize, n: usize, mark: Mark)
    requires { (length sat.old ≡ 256) × (s + n ≤ most_sectors) }
    ensures { sat.new ≡ with_bits (bit_of mark) sat.old (range s n) }
{
    let end = s + n;
    let a = (s + 7) / 8;
    let e = end / 8;
    if e <= a {
        set_bits(sat, s, n, mark);
        return;
    }
    set_bits(sat, s, 8 * a - s, mark);
    fill(&mut sat[a..e], mark.byte());
    set_bits(sat, 8 * e, end - 8 * e, mark);
}

/// Makes n sectors from s on used or free in the table at sector `sat` of an image.
pub fn set_run_in(img: &mut [u8], sat: usize, s: usize, n: usize, mark: Mark)
    requires { (256 * sat + 256 ≤ length img.old) × (s + n ≤ most_sectors) }
    ensures { img.new ≡ put_sector sat (with_bits (bit_of mark) (sector sat img.old) (range s n)) img.old }
{
    at_sector(img, sat, |b| set_run(b, s, n, mark));
}

/// Are two tables the same?
#[tactic(auto, using(crate::proofs::Searches::TablesSame::pointwise_same))]
pub fn same_table(a: &Sector, b: &Sector) -> bool
    ensures { result ≡ same a.now b.now }
{
    a == b
}
