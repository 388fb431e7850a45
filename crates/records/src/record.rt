// The records of a stream: counted, found. Heads and pads are read, data is not.
ghost use Rattle.std.specs.Prelude.{◌≡◌, ◌*◌, ◌%◌, ◌≤◌, ◌<◌, length, true};
ghost use Rattle.records.specs.Code.Mapped.{stream_in};
ghost use Rattle.records.specs.Code.Runs.{run_from};
ghost use Rattle.records.specs.Code.Spots.{step_at, counted_of, spot_of};
ghost use Rattle.records.specs.Records.{whole_records};
ghost use Rattle.numbers.specs.Numbers.{record_limit};

use crate::stream::{Run, Stream, run_after, run_at};
use lists::parts::word_at;
use numbers::RECORD_LIMIT;

/// Where a record's data lies in its stream: the first byte, and how many.
#[derive(Clone, Copy, Debug, PartialEq, Eq)]
pub struct Extent {
    pub from: usize,
    pub len: usize,
}

impl<'a> Stream<'a> {
    // The place after the variable record at p, if it is a good one. Its count word lies in one sector, since every record starts at an even place.
    fn step_at(&self, e: usize, p: usize, run: Run) -> Option<usize>
        requires { (e ≤ 256 * length self.now.map.now) × (p < e) × (p % 2 ≡ 0) × (run ≡ run_from self.now.map.now p) }
        ensures { result ≡ step_at (stream_in self.now.img.now self.now.map.now e) p }
    {
        if e - p < 2 {
            return None;
        }
        let n = word_at(self.img, run.at);
        let d = 2 + n + n % 2;
        if RECORD_LIMIT < n || e - p < d {
            return None;
        }
        // Stays: a product and no `&&`, so that the pad is judged without a jump, which would be foreseen half the time.
        if n % 2 * usize::from(self.byte_before(p, run, d)) != 0 {
            return None;
        }
        Some(p + d)
    }

    fn walk_variable(&self, e: usize) -> Option<usize>
        requires { e ≤ 256 * length self.now.map.now }
        ensures { result ≡ counted_of 0 (stream_in self.now.img.now self.now.map.now e) }
    {
        let mut p = 0;
        let mut n = 0;
        let mut run = run_at(self.map, 0);
        // Stays: the step is a record's length.
        while p < e {
            let q = self.step_at(e, p, run)?;
            run = run_after(self.map, p, run, q - p);
            p = q;
            n += 1;
        }
        Some(n)
    }

    /// Counts the records of length l, 0 for variable ones, that the first e bytes are.
    pub fn walk(&self, l: usize, e: usize) -> Option<usize>
        requires { e ≤ 256 * length self.now.map.now }
        ensures { result ≡ counted_of l (stream_in self.now.img.now self.now.map.now e) }
    {
        if l == 0 {
            return self.walk_variable(e);
        }
        if e % l == 0 {
            return Some(e / l);
        }
        None
    }

    fn find_variable(&self, e: usize, i: usize) -> Option<Extent>
        requires { (e ≤ 256 * length self.now.map.now) × (whole_records 0 (stream_in self.now.img.now self.now.map.now e) ≡ true) }
        ensures { result ≡ spot_of 0 (stream_in self.now.img.now self.now.map.now e) i }
    {
        let mut p = 0;
        let mut run = run_at(self.map, 0);
        for _k in 0..i {
            if e <= p {
                return None;
            }
            let n = word_at(self.img, run.at);
            let d = 2 + n + n % 2;
            run = run_after(self.map, p, run, d);
            p += d;
        }
        if e <= p {
            return None;
        }
        let len = word_at(self.img, run.at);
        Some(Extent { from: p + 2, len })
    }

    /// Finds record i of the records of length l, 0 for variable ones, that the first e bytes are.
    pub fn find(&self, l: usize, e: usize, i: usize) -> Option<Extent>
        requires { (e ≤ 256 * length self.now.map.now) × (l ≤ record_limit) × (whole_records l (stream_in self.now.img.now self.now.map.now e) ≡ true) }
        ensures { result ≡ spot_of l (stream_in self.now.img.now self.now.map.now e) i }
    {
        if l == 0 {
            return self.find_variable(e, i);
        }
        if i < e / l {
            return Some(Extent {
                from: l * i,
                len: l,
            });
        }
        None
    }
}
