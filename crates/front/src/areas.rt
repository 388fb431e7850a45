// The two areas: which of them an address names, and the part of it from a start to an end address.
ghost use Rattle.std.specs.Prelude.{◌≡◌, length};
ghost use Rattle.front.specs.Areas.{names_shared, inside, area};
ghost use Rattle.front.specs.Code.Spans.{chosen_of, span_of, Within, part_of};

// The top bit of an address.
const TOP_BIT: usize = 0x80000000;

// Whether an address names the shared segment.
fn names_shared(address: usize) -> bool
    ensures { result ≡ names_shared address }
{
    TOP_BIT <= address
}

// The length of the area that is meant.
fn size(second: bool, task: &[u8], shared: &[u8]) -> usize
    ensures { result ≡ length (area second task.now shared.now) }
{
    if second { shared.len() } else { task.len() }
}

/// Whether the part from a start to an end address, both included, lies wholly inside the named area.
#[tactic(auto, using(lists::proofs::Steps::bool_steps), unfolding(crate::specs::Areas::inside))]
pub(crate) fn inside(start: usize, end: usize, task: &[u8], shared: &[u8]) -> bool
    ensures { result ≡ inside start end task.now shared.now }
{
    start / TOP_BIT == end / TOP_BIT
        && start % TOP_BIT <= end % TOP_BIT
        && end % TOP_BIT < size(names_shared(start), task, shared)
}

/// A part of one of the areas: whether it is the shared segment, and the part's bytes from one number up to another.
#[derive(Clone, Copy, Debug, PartialEq, Eq)]
pub struct Span {
    pub shared: bool,
    pub from: usize,
    pub to: usize,
}

/// The part from a start to an end address, both included.
pub(crate) fn span_of(start: usize, end: usize) -> Span
    ensures { result ≡ span_of start end }
{
    Span {
        shared: names_shared(start),
        from: start % TOP_BIT,
        to: end % TOP_BIT + 1,
    }
}

/// That part of the named area.
pub(crate) fn part<'a>(task: &'a [u8], shared: &'a [u8], p: Span) -> &'a [u8]
    requires { Within p task.now shared.now }
    ensures { result.now ≡ part_of p (area p.shared task.now shared.now) }
{
    if p.shared {
        &shared[p.from..p.to]
    } else {
        &task[p.from..p.to]
    }
}

/// The one of two lent areas that is named.
pub(crate) fn chosen<'a>(task: &'a mut [u8], shared: &'a mut [u8], second: bool) -> &'a mut [u8]
    ensures { result ≡ chosen_of second task.entry shared.entry }
{
    if second { shared } else { task }
}
