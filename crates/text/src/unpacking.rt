// A packed text, unpacked: each stored byte gives itself, or spaces.
#![tactic(auto, unfolding(crate::specs::Packing::shown))]

ghost use Rattle.std.specs.Prelude.{◌≡◌, ◌+◌, ◌*◌, ◌≤◌, length};
ghost use Rattle.lists.specs.Parts.{put, over};
ghost use Rattle.text.specs.Packing.{most_spaces, shown, unpacked};

use crate::MARK;

// How many bytes of text a stored byte stands for.
fn shown_length(b: u8) -> usize
    ensures { (result ≡ length (shown b)) × (result ≤ most_spaces) }
{
    if b < MARK { 1 } else { usize::from(b - MARK) }
}

// Hands back the place after what it wrote.
fn put_shown(buffer: &mut [u8], n: usize, b: u8) -> usize
    requires { n + length (shown b) ≤ length buffer.old }
    ensures { (result ≡ n + length (shown b)) × (buffer.new ≡ put n (shown b) buffer.old) }
{
    if b < MARK {
        buffer[n] = b;
        return n + 1;
    }
    let e = n + usize::from(b - MARK);
    buffer[n..e].fill(b' ');
    e
}

/// How long the text is that the stored bytes stand for.
pub fn text_length(stored: &[u8]) -> usize
    requires { length stored.now ≤ 65536 }
    ensures { (result ≡ length (unpacked stored.now)) × (result ≤ most_spaces * length stored.now) }
{
    stored.iter().map(|b| shown_length(*b)).sum()
}

/// Writes the text to the front of the buffer.
pub fn unpack(stored: &[u8], buffer: &mut [u8])
    requires { length (unpacked stored.now) ≤ length buffer.old }
    ensures { buffer.new ≡ over (unpacked stored.now) buffer.old }
{
    let mut n = 0;
    for b in stored {
        n = put_shown(buffer, n, *b);
    }
}
