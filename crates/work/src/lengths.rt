// Lengths of buffers, data and runs of sectors.
#![tactic(auto, using(lists::proofs::Steps::bool_steps, std::proofs::lemmas::Bool::Decides::nat_tests), unfolding(crate::specs::Transfers::odd_length, records::specs::Records::allowed, crate::specs::Code::Runs::fewer))]

ghost use Rattle.std.specs.Prelude.{◌≡◌, ◌+◌, ◌≤◌};
ghost use Rattle.records.specs.Records.{allowed};
ghost use Rattle.work.specs.Transfers.{odd_length};
ghost use Rattle.work.specs.Code.Runs.{fewer};

use numbers::{MOST_MOVED, RECORD_LIMIT};

/// Whether a contiguous transfer cannot have this length: 0, no multiple of 256, or over 4,096.
pub fn odd_length(n: usize) -> bool
    ensures { result ≡ odd_length n }
{
    n == 0 || n % 256 != 0 || 256 * MOST_MOVED < n
}

/// Whether a record of a file of record length l, 0 for variable ones, may hold these data.
pub fn allowed(l: usize, data: &[u8]) -> bool
    ensures { result ≡ allowed l «data».now }
{
    data.len() <= RECORD_LIMIT && (l == 0 || data.len() == l)
}

/// m, or as many as there are from i on up to n.
pub fn fewer(n: usize, i: usize, m: usize) -> usize
    requires { i ≤ n }
    ensures { (result ≡ fewer n i m) × (result ≤ m) × (i + result ≤ n) }
{
    m.min(n - i)
}
