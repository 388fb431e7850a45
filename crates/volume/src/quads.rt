// The bits of the SAT's bytes, and of its quads of eight bytes, found and counted by the language's own counts.
ghost use Rattle.std.specs.Prelude.{◌≡◌, ◌-◌, ◌<◌, ◌≤◌, length};
ghost use Rattle.lists.specs.Lists.{range, first, kept};
ghost use Rattle.volume.specs.Code.Searches.{bit_at, clear_at, clear_bits, quad, row_at, EndsAt};

use lists::parts::Sector;

/// Quad q of the table: eight bytes as one number.
pub fn quad_at(sat: &Sector, q: usize) -> usize
    requires { q < 32 }
    ensures { result ≡ quad sat.now q }
{
    usize::from_be_bytes(sat.as_chunks::<8>().0[q])
}

// Stays: 8 for none, here, and 64 below, as the definition `first` answers the number past the last.
/// The first clear bit of a byte from bit k on, or 8: the count of leading zeros of its complement, with the bits before k shifted out.
pub fn first_clear(b: u8, k: usize) -> usize
    requires { k < 8 }
    ensures { result ≡ first (clear_at 8 b) k (8 - k) }
{
    let rest = !b << k;
    if rest == 0 {
        return 8;
    }
    k + rest.leading_zeros() as usize
}

/// The first set bit of a quad, or 64.
pub fn first_set(x: usize) -> usize
    ensures { result ≡ first (bit_at 64 x) 0 64 }
{
    x.leading_zeros() as usize
}

/// One past the last set bit of a quad, or 0.
pub fn set_end(x: usize) -> usize
    ensures { EndsAt x result }
{
    64 - x.trailing_zeros() as usize
}

/// The lowest bit of a quad from which on n bits are set, or 64. Two rows of m bits, at most m places apart, make a longer one: the bits of
/// `rows` are where rows of m bits start.
pub fn first_row(x: usize, n: usize) -> usize
    requires { 1 ≤ n }
    ensures { result ≡ first (row_at x n) 0 64 }
{
    if 64 < n {
        return 64;
    }
    let mut rows = x;
    let mut m: usize = 1;
    // Stays: the step doubles.
    while m < n {
        if rows == 0 {
            return 64;
        }
        let s = m.min(n - m);
        rows &= rows << s;
        m += s;
    }
    first_set(rows)
}

/// How many bits of a byte are clear.
#[tactic(auto, unfolding(crate::specs::Code::Searches::clear_bits))]
pub fn clear_count(b: u8) -> u32
    ensures is { result ≡ clear_bits b }
    ensures below { result ≤ 8 }
{
    set_count(!b, 8)
}

/// How many of the first r bits of a byte are set.
pub fn set_count(b: u8, r: usize) -> u32
    requires { (1 ≤ r) × (r ≤ 8) }
    ensures { (result ≡ length (kept (bit_at 8 b) (range 0 r))) × (result ≤ r) }
{
    (b >> (8 - r)).count_ones()
}
