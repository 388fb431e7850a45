// File access blocks: where their numbers stand; read, judged, extended, written.
ghost use Rattle.std.specs.Prelude.{◌≡◌, false, ◌+◌, ◌*◌, ◌≤◌, ◌<◌, [], ◌∷◌, ◌++◌, length, is_ok};
ghost use Rattle.std.specs.List.{list_all, sum_by};
ghost use Rattle.numbers.specs.Numbers.{most_segments};
ghost use Rattle.ownership.specs.Blocks.{pairs, segments, total, stream_length, seg_start, seg_length, block_of, extended};
ghost use Rattle.ownership.specs.Blocks.{segment_sound, block_sound, placed, sound3};
ghost use Rattle.ownership.specs.Code.Shapes.{BlockShaped, HasSegment, pair_at, follows, last_pair, lengthened, pair, Extends};
ghost use Rattle.ownership.specs.Code.Shapes.{with_pairs, segments_fit, ExtendsRun, Extended};
ghost use Rattle.lists.specs.Lists.{range};
ghost use Rattle.volume.specs.Directory.{unused};

use lists::parts::{all_zero, long_at, put_long, put_word, sector_of, word_at};
use numbers::MOST_SEGMENTS;
use volume::directory::{Entry, contiguous, size, start};
use volume::mount::Volume;
use volume::used::Used;

/// An access block: one sector.
pub type Block = [u8; 256];

// Stays: a slice and its length, here and below: a block that is written is lent as a part of an image, which is no array.
/// How many segments there are.
pub fn segments(f: &[u8]) -> usize
    requires { length f.now ≡ 256 }
    ensures { (result ≡ segments f.now) × (result < 65536) }
{
    word_at(f, 0)
}

/// The total of data sectors.
pub fn total(f: &[u8]) -> usize
    requires { length f.now ≡ 256 }
    ensures { (result ≡ total f.now) × (result < 65536) }
{
    word_at(f, 2)
}

/// The stream length E.
pub fn stream_length(f: &[u8]) -> usize
    requires { length f.now ≡ 256 }
    ensures { (result ≡ stream_length f.now) × (result < 4294967296) }
{
    long_at(f, 4)
}

/// Where segment k starts.
pub fn seg_start(f: &[u8], k: usize) -> usize
    requires { HasSegment f.now k }
    ensures { (result ≡ seg_start (pair_at f.now k)) × (result < 65536) }
{
    word_at(f, 8 + 4 * k)
}

/// How many sectors segment k has.
pub fn seg_length(f: &[u8], k: usize) -> usize
    requires { HasSegment f.now k }
    ensures { (result ≡ seg_length (pair_at f.now k)) × (result < 65536) }
{
    word_at(f, 10 + 4 * k)
}

/// The pair of words in which an access block keeps a segment: its start, then its length.
pub type Pair = [u8; 4];

/// Consecutive sectors of a volume: `length` of them, from number `start` on.
#[derive(Clone, Copy, Debug, PartialEq, Eq, Hash)]
pub struct Segment {
    pub start: usize,
    pub length: usize,
}

impl Segment {
    /// The segment that a pair of words tells.
    pub fn of(pair: &Pair) -> Segment
        ensures start { result.start ≡ seg_start pair.now }
        ensures length { result.length ≡ seg_length pair.now }
        ensures start_below { result.start < 65536 }
        ensures length_below { result.length < 65536 }
    {
        Segment {
            start: usize::from(u16::from_be_bytes([pair[0], pair[1]])),
            length: usize::from(u16::from_be_bytes([pair[2], pair[3]])),
        }
    }

    // Has it a sector, and does it lie inside a volume of t sectors?
    #[tactic(auto, using(lists::proofs::Steps::bool_steps), unfolding(crate::specs::Blocks::segment_sound))]
    fn fits(pair: &Pair, t: usize) -> bool
        ensures { result ≡ segment_sound t pair.now }
    {
        let segment = Segment::of(pair);
        1 <= segment.length && segment.start + segment.length <= t
    }
}

/// The pairs of an access block, in order.
pub fn pairs(f: &[u8]) -> &[Pair]
    requires { (length f.now ≡ 256) × (segments f.now ≤ most_segments) }
    ensures is { result.now ≡ pairs f.now }
    ensures few { length result.now ≤ most_segments }
{
    f[8..8 + 4 * segments(f)].as_chunks::<4>().0
}

// Does sector s follow the last segment directly?
fn joins(f: &[u8], s: usize) -> bool
    requires { BlockShaped f.now }
    ensures { result ≡ follows (pairs f.now) s }
{
    let n = segments(f);
    n != 0 && seg_start(f, n - 1) + seg_length(f, n - 1) == s
}

// The last segment n sectors longer.
fn lengthen(f: &mut [u8], n: usize)
    requires { BlockShaped f.old × (1 ≤ segments f.old) × (seg_length (last_pair (pairs f.old)) + n < 65536) }
    ensures { f.new ≡ with_pairs f.old (lengthened (pairs f.old) n) }
{
    let at = 6 + 4 * segments(f);
    let len = word_at(f, at);
    put_word(f, at, len + n);
}

// A new segment of n sectors from s on.
fn open_segment(f: &mut [u8], s: usize, n: usize)
    requires { BlockShaped f.old × (segments f.old < most_segments) × (s < 65536) × (n < 65536) }
    ensures { f.new ≡ with_pairs f.old (pairs f.old ++ (pair s n ∷ [])) }
{
    let k = segments(f);
    let at = 8 + 4 * k;
    put_word(f, at, s);
    put_word(f, at + 2, n);
    put_word(f, 0, k + 1);
}

/// One sector more at the file's end.
pub fn extend(f: &mut [u8], s: usize)
    requires { Extends f.old s }
    ensures { f.new ≡ with_pairs f.old (extended (pairs f.old) s) }
{
    if joins(f, s) {
        lengthen(f, 1);
    } else {
        open_segment(f, s, 1);
    }
}

/// No segment is left: an access block has at most 62.
#[derive(Clone, Copy, Debug, PartialEq, Eq, Hash)]
pub struct NoSegment;

/// n sectors from s on more at the file's end, if 62 segments are enough. If not, the block stays as it was.
pub fn extend_run(f: &mut [u8], s: usize, n: usize) -> Result<(), NoSegment>
    requires { ExtendsRun f.old s n }
    ensures { Extended f.old (range s n) (is_ok result) f.new × (is_ok result ≡ false → f.new ≡ f.old) }
{
    if n == 0 {
        return Ok(());
    }
    if joins(f, s) {
        lengthen(f, n);
        return Ok(());
    }
    if MOST_SEGMENTS <= segments(f) {
        return Err(NoSegment);
    }
    open_segment(f, s, n);
    Ok(())
}

/// The total of data sectors and the stream's length, written anew.
pub fn set_totals(f: &mut [u8], n: usize, e: usize)
    requires { BlockShaped f.old × (n < 65536) × (e < 4294967296) }
    ensures { f.new ≡ block_of (pairs f.old) n e }
{
    put_word(f, 2, n);
    put_long(f, 4, e);
}

// Has each of the segments a sector, and do all lie inside a volume of t sectors?
fn all_fit(pairs: &[Pair], t: usize) -> bool
    ensures { result ≡ list_all (segment_sound t) pairs.now }
{
    pairs.iter().all(|pair| Segment::fits(pair, t))
}

// How many sectors the segments have.
fn sectors_in(pairs: &[Pair]) -> usize
    requires { length pairs.now ≤ most_segments }
    ensures { result ≡ sum_by (λ p. seg_length p) pairs.now }
{
    pairs.iter().map(|pair| Segment::of(pair).length).sum()
}

// Each of the segments has a sector and lies inside the volume, and their lengths sum to the total.
#[tactic(auto, using(lists::proofs::Steps::bool_steps, lists::proofs::Iterators::all_is, crate::proofs::Pairs::sum_listed))]
fn segments_sound(f: &Block, t: usize) -> bool
    requires { segments f.now ≤ most_segments }
    ensures { result ≡ segments_fit t f.now }
{
    let pairs = pairs(f);
    all_fit(pairs, t) && sectors_in(pairs) == total(f)
}

/// Is an access block as point 3 of soundness asks, on a volume of t sectors?
#[tactic(auto, using(lists::proofs::Steps::bool_steps, crate::proofs::BlockTests::rest_lent), unfolding(crate::specs::Blocks::block_sound, lists::specs::Parts::in_sectors))]
pub fn block_sound(f: &Block, t: usize) -> bool
    ensures { result ≡ block_sound t f.now }
{
    let n = segments(f);
    n <= MOST_SEGMENTS
        && all_zero(&f[8 + 4 * n..])
        && segments_sound(f, t)
        && total(f) == stream_length(f).div_ceil(256)
}

/// Does what a used entry points to lie on the volume, and is its access block sound?
pub fn placed(img: &[u8], t: usize, e: &Entry) -> bool
    requires { (length img.now ≡ 256 * t) × (unused e.now ≡ false) }
    ensures { result ≡ placed img.now e.now }
{
    let s = start(e);
    if contiguous(e) {
        s + size(e) <= t
    } else {
        s < t && block_sound(sector_of(img, s), t)
    }
}

// The same on a volume that has its length.
fn lies_on(v: &Volume<'_>, e: &Entry) -> bool
    requires { unused e.now ≡ false }
    ensures { result ≡ placed v.now.img.now e.now }
{
    placed(v.img, v.p.t, e)
}

/// Point 3 of soundness but for the streams' tails.
pub fn blocks_sound(u: &Used<'_, '_>) -> bool
    ensures { result ≡ sound3 u.now.volume.img.now }
{
    (0..u.slots.len()).all(|i| lies_on(&u.volume, u.entry(i)))
}
