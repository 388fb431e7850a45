// A record in the form that it has in the stream: its length, and written.
ghost use Rattle.std.specs.Prelude.{◌≡◌, ◌+◌, ◌≤◌, ◌*◌, ◌<◌, length};
ghost use Rattle.numbers.specs.Numbers.{record_limit};
ghost use Rattle.records.specs.Records.{encoded};
ghost use Rattle.records.specs.Code.Mapped.{Spread, written_at};

use crate::chunks::write_stream;
use lists::parts::put_word;

/// How long the record r is in the stream of a file of record length l, 0 for variable ones.
#[tactic(auto, using(crate::proofs::RecordReplaced::length_variable, crate::proofs::StreamWrites::encoded_fixed))]
pub fn encoded_length(l: usize, r: &[u8]) -> usize
    requires { length r.now ≤ record_limit }
    ensures { result ≡ length (encoded l r.now) }
{
    if l == 0 {
        return 2 + r.len() + r.len() % 2;
    }
    r.len()
}

// A count word, the data, and a zero byte if the count is odd.
fn write_variable(img: &mut [u8], map: &[u16], p: usize, r: &[u8])
    requires { Spread img.old map.now × (length r.now < 65536) × (p + length (encoded 0 r.now) ≤ 256 * length map.now) }
    ensures { img.new ≡ written_at img.old map.now p (encoded 0 r.now) }
{
    let mut head = [0u8; 2];
    put_word(&mut head, 0, r.len());
    write_stream(img, map, p, &head);
    write_stream(img, map, p + 2, r);
    write_stream(img, map, p + 2 + r.len(), &[0][..r.len() % 2]);
}

/// Writes the record r of a file of record length l, 0 for variable ones, to the stream at p.
pub fn write_record(img: &mut [u8], map: &[u16], p: usize, l: usize, r: &[u8])
    requires { Spread img.old map.now × (length r.now < 65536) × (p + length (encoded l r.now) ≤ 256 * length map.now) }
    ensures { img.new ≡ written_at img.old map.now p (encoded l r.now) }
{
    if l == 0 {
        write_variable(img, map, p, r);
        return;
    }
    write_stream(img, map, p, r);
}
