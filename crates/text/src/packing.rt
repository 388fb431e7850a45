// A text, tested and packed: bytes below $80, with runs of spaces held back until their length is known.
#![tactic(auto, unfolding(crate::specs::Packing::rest, crate::specs::Packing::goes_out, crate::specs::Packing::held_after))]

ghost use Rattle.std.specs.Prelude.{◌≡◌, [], ◌∷◌, ◌+◌, ◌≤◌, length};
ghost use Rattle.lists.specs.Parts.{put, over};
ghost use Rattle.text.specs.Packing.{most_spaces, is_text, rest, goes_out, held_after, packed};

use crate::{FULL, MARK, MOST_SPACES};

/// Whether all bytes are below $80.
pub fn is_text(bytes: &[u8]) -> bool
    ensures { result ≡ is_text bytes.now }
{
    bytes.iter().all(|b| *b < MARK)
}

// The one byte that k spaces go out as.
fn rest_byte(k: usize) -> u8
    requires { (1 ≤ k) × (k ≤ most_spaces) }
    ensures { rest k ≡ result ∷ [] }
{
    // Stays: `k as u8`: k is at most 127, and `u8::try_from` has an error that no call could meet.
    if k == 1 { b' ' } else { MARK + k as u8 }
}

// Writes the rest of a run of k spaces at n. This and the next hand back the place after what they wrote.
fn put_rest(out: &mut [u8], n: usize, k: usize) -> usize
    requires { (k ≤ most_spaces) × (n + length (rest k) ≤ length out.old) }
    ensures { (result ≡ n + length (rest k)) × (out.new ≡ put n (rest k) out.old) }
{
    if k == 0 {
        return n;
    }
    out[n] = rest_byte(k);
    n + 1
}

// k spaces are held back, and the byte b comes: of 127 spaces that are held and one more, $FF goes out.
fn put_step(out: &mut [u8], n: usize, k: usize, b: u8) -> usize
    requires { (k ≤ most_spaces) × (n + length (goes_out k b) ≤ length out.old) }
    ensures { (result ≡ n + length (goes_out k b)) × (out.new ≡ put n (goes_out k b) out.old) }
{
    if b != b' ' {
        let m = put_rest(out, n, k);
        out[m] = b;
        return m + 1;
    }
    if k < MOST_SPACES {
        return n;
    }
    out[n] = FULL;
    n + 1
}

// How many spaces are held back then.
fn held_after(k: usize, b: u8) -> usize
    requires { k ≤ most_spaces }
    ensures { (result ≡ held_after k b) × (result ≤ most_spaces) }
{
    match b {
        b' ' if k == MOST_SPACES => 1,
        b' ' => k + 1,
        _ => 0,
    }
}

/// Writes the packed text to the front of `out`, and hands back its length.
pub fn pack(bytes: &[u8], out: &mut [u8]) -> usize
    requires { length bytes.now ≤ length out.old }
    ensures { (result ≡ length (packed bytes.now)) × (result ≤ length bytes.now)
        × (out.new ≡ over (packed bytes.now) out.old) }
{
    let mut n = 0;
    let mut k = 0;
    for b in bytes {
        n = put_step(out, n, k, *b);
        k = held_after(k, *b);
    }
    put_rest(out, n, k)
}
