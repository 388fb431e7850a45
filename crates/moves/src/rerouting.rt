// The access block of a file one of whose sectors is another, made anew, segment by segment.
ghost use Rattle.std.specs.Prelude.{◌≡◌, true, [], ◌+◌, ◌≤◌, ◌<◌, length, set, leb, is_ok, IfOk};
ghost use Rattle.numbers.specs.Numbers.{most_sectors, most_segments};
ghost use Rattle.lists.specs.Lists.{range};
ghost use Rattle.ownership.specs.Blocks.{total, stream_length, sectors_of, block_sound, extended_by, block_of};
ghost use Rattle.ownership.specs.Code.Shapes.{Extended};
ghost use Rattle.moves.specs.Code.Shapes.{run_with, TakesRuns, Reroutes};

use ownership::blocks::{
    Block, NoSegment, Segment, extend_run, pairs, set_totals, stream_length, total,
};

// The n sectors from s on join the block g.
fn push_run(g: &mut [u8], s: usize, n: usize) -> Result<(), NoSegment>
    requires { TakesRuns g.old × (s + n ≤ most_sectors) }
    ensures { Extended g.old (range s n) (is_ok result) g.new }
{
    extend_run(g, s, n)
}

// They do with q for number j of them.
fn push_with(g: &mut [u8], s: usize, n: usize, j: usize, q: usize) -> Result<(), NoSegment>
    requires { TakesRuns g.old × (s + n ≤ most_sectors) × (j < n) × (q < most_sectors) }
    ensures { Extended g.old (set (range s n) j q) (is_ok result) g.new }
{
    push_run(g, s, j)?;
    push_run(g, q, 1)?;
    let next = j + 1;
    push_run(g, s + next, n - next)
}

// A segment's n sectors from s on, which are those of number `at` and on, join the block g, with q for number i if it is one of them.
fn push_segment(
    g: &mut [u8],
    at: usize,
    s: usize,
    n: usize,
    i: usize,
    q: usize,
) -> Result<(), NoSegment>
    requires { TakesRuns g.old × (s + n ≤ most_sectors) × (q < most_sectors) }
    ensures { Extended g.old (run_with at s n i q) (is_ok result) g.new }
{
    match i.checked_sub(at) {
        Some(j) if j < n => push_with(g, s, n, j, q),
        _ => push_run(g, s, n),
    }
}

// The sectors of the access block f join the block g, with q for number i.
fn push_all(f: &Block, i: usize, q: usize, g: &mut [u8]) -> Result<(), NoSegment>
    requires { Reroutes f.now q g.old }
    ensures { Extended g.old (set (sectors_of f.now) i q) (is_ok result) g.new }
{
    let mut at = 0;
    for pair in pairs(f) {
        let Segment { start, length } = Segment::of(pair);
        push_segment(g, at, start, length, i, q)?;
        at += length;
    }
    Ok(())
}

/// The access block f with q for its sector of number i, made anew. An error if that takes more than 62 segments.
pub(crate) fn reroute(f: &Block, i: usize, q: usize) -> Result<Block, NoSegment>
    requires { (block_sound most_sectors f.now ≡ true) × (q < most_sectors) }
    ensures answer { is_ok result ≡ leb (length (extended_by [] (set (sectors_of f.now) i q))) most_segments }
    ensures made { IfOk result (λ g. g ≡ block_of (extended_by [] (set (sectors_of f.now) i q)) (total f.now) (stream_length f.now)) }
{
    let mut g = [0u8; 256];
    set_totals(&mut g, total(f), stream_length(f));
    push_all(f, i, q, &mut g)?;
    Ok(g)
}
