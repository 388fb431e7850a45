// A stream read by the map of its sectors: a byte, a record's data, the runs of bytes that stand side by side.
ghost use Rattle.std.specs.Prelude.{◌≡◌, ◌<◌, ◌+◌, ◌-◌, ◌*◌, ◌≤◌, ℕ, get_or, length};
ghost use Rattle.lists.specs.Parts.{part, over, byte};
ghost use Rattle.records.specs.Streams.{laid_out};
ghost use Rattle.numbers.specs.Numbers.{most_sectors};
ghost use Rattle.records.specs.Code.Mapped.{Mapped};
ghost use Rattle.records.specs.Code.Runs.{run_from, run_end};

use crate::chunks::copy_at;

/// A stream as it is read: an image, and the map of the stream's sectors, in order.
#[derive(Clone, Copy)]
pub struct Stream<'a> {
    pub img: &'a [u8],
    pub map: &'a [u16],
    ghost mapped: { Mapped img.now map.now },
    ghost bytes: { (k : ℕ) → get_or img.now k 0 < 256 },
}

impl<'a> Stream<'a> {
    /// Copies `len` bytes from `from` on, the part of each sector that they lie in at once.
    pub fn read(&self, from: usize, len: usize, buf: &mut [u8])
        requires { (from + len ≤ 256 * length self.now.map.now) × (len ≤ length buf.old) }
        ensures { buf.new ≡ over (part from len (laid_out self.now.img.now self.now.map.now)) buf.old }
    {
        let mut i = 0;
        // Stays: each turn goes on to the end of its sector.
        while i < len {
            let q = from + i;
            let r = q % 256;
            let n = (256 - r).min(len - i);
            let at = 256 * usize::from(self.map[q / 256]) + r;
            copy_at(buf, i, &self.img[at..at + n]);
            i += n;
        }
    }

    /// The byte at p.
    #[tactic(auto, using(crate::proofs::StreamBytes::laid_out_at))]
    pub fn byte(&self, p: usize) -> u8
        requires { p < 256 * length self.now.map.now }
        ensures { result ≡ byte (laid_out self.now.img.now self.now.map.now) p }
    {
        self.img[256 * usize::from(self.map[p / 256]) + p % 256]
    }

    /// The byte before p + d, where the run of p is known.
    pub fn byte_before(&self, p: usize, run: Run, d: usize) -> u8
        requires { (0 < d) × (p + d ≤ 256 * length self.now.map.now) × (run ≡ run_from self.now.map.now p) }
        ensures { result ≡ byte (laid_out self.now.img.now self.now.map.now) (p + d - 1) }
    {
        if p + d < run.end {
            return self.img[run.at + d - 1];
        }
        self.byte(p + d - 1)
    }
}

/// A byte of the stream by its place in the image, and the place of the stream up to which those after it follow it there.
#[derive(Clone, Copy, Debug, PartialEq, Eq)]
pub struct Run {
    pub at: usize,
    pub end: usize,
}

// Where in the map the run of its sector k ends.
fn run_end(map: &[u16], k: usize) -> usize
    requires { k < length map.now }
    ensures { (result ≡ run_end map.now k) × (result ≤ length map.now) }
{
    for j in k + 1..map.len() {
        if usize::from(map[j]) != usize::from(map[j - 1]) + 1 {
            return j;
        }
    }
    map.len()
}

/// The run of the stream from p on, an empty one past the end.
#[tactic(auto, using(crate::proofs::StreamRuns::run_none, crate::proofs::StreamRuns::run_some))]
pub fn run_at(map: &[u16], p: usize) -> Run
    requires { length map.now ≤ most_sectors }
    ensures { result ≡ run_from map.now p }
{
    let k = p / 256;
    if map.len() <= k {
        return Run { at: 0, end: 0 };
    }
    Run {
        at: 256 * usize::from(map[k]) + p % 256,
        end: 256 * run_end(map, k),
    }
}

/// The run d places on, where that of p is known.
pub fn run_after(map: &[u16], p: usize, run: Run, d: usize) -> Run
    requires { (length map.now ≤ most_sectors) × (p + d ≤ 256 * length map.now) × (run ≡ run_from map.now p) }
    ensures { result ≡ run_from map.now (p + d) }
{
    if p + d < run.end {
        return Run {
            at: run.at + d,
            end: run.end,
        };
    }
    run_at(map, p + d)
}
