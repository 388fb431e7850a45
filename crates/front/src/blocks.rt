// The request block: what its bytes ask for.
ghost use Rattle.std.specs.Prelude.{◌≡◌, not, ◌<◌, length};
ghost use Rattle.front.specs.Blocks.{block_size, function_of, options_of, lun_in, number_in, start_in, end_in, bit, transfer_options};
ghost use Rattle.front.specs.Blocks.{rewind_options, selector_in, formatted_in, is_transfer, is_rewind, block_after};

use desk::Answer;
use desk::answers::{moved_of, status_of};
use lists::parts::{long_at, put_long, word_at};

/// Bytes of a request block.
pub const BLOCK_BYTES: usize = 28;

/// A request block.
pub type Block = [u8; BLOCK_BYTES];

// Where a block has its request code, function, options, status, LUN, record number, start address, end address and length.
const CODE_AT: usize = 0;

const FUNCTION_AT: usize = 1;

const OPTIONS_AT: usize = 2;

const STATUS_AT: usize = 4;

const LUN_AT: usize = 5;

const NUMBER_AT: usize = 8;

const START_AT: usize = 12;

const END_AT: usize = 16;

const LENGTH_AT: usize = 0x14;

// Request codes, and the functions of each.
const TRANSFER: u8 = 0x00;

pub(crate) const READ: u8 = 0x01;

pub(crate) const WRITE: u8 = 0x02;

const UPDATE: u8 = 0x08;

const CONTROL: u8 = 0x01;

const REWIND: u8 = 0x02;

/// The function of a block.
pub(crate) fn function(block: &Block) -> u8
    ensures { result ≡ function_of block.now }
{
    block[FUNCTION_AT]
}

/// The LUN of a block.
pub(crate) fn lun(block: &Block) -> u32
    ensures { result ≡ lun_in block.now }
{
    u32::from(block[LUN_AT])
}

/// The record number of a block.
pub(crate) fn number(block: &Block) -> u32
    ensures { result ≡ number_in block.now }
{
    // Stays: `as`, here and below: four bytes are a u32, which has no From<usize>.
    long_at(block, NUMBER_AT) as u32
}

/// The start address of a block.
pub(crate) fn start(block: &Block) -> usize
    ensures { result ≡ start_in block.now }
{
    long_at(block, START_AT)
}

/// The end address of a block.
pub(crate) fn end(block: &Block) -> usize
    ensures { result ≡ end_in block.now }
{
    long_at(block, END_AT)
}

// Whether bit k of an options word is clear.
fn clear(w: usize, k: usize) -> bool
    requires { k < 16 }
    ensures { result ≡ not (bit k w) }
{
    // Stays: a shift and a remainder. Of a mask the check does not find the bit.
    (w >> k) % 2 != 1
}

#[tactic(auto, using(lists::proofs::Steps::bool_steps), unfolding(crate::specs::Blocks::transfer_options, crate::specs::Blocks::all_clear, lists::specs::Lists::all))]
fn transfer_options(w: usize) -> bool
    ensures { result ≡ transfer_options w }
{
    clear(w, 15)
        && clear(w, 12)
        && clear(w, 11)
        && clear(w, 10)
        && clear(w, 9)
        && clear(w, 7)
        && clear(w, 6)
        && clear(w, 5)
        && clear(w, 4)
        && clear(w, 1)
}

#[tactic(auto, using(lists::proofs::Steps::bool_steps), unfolding(crate::specs::Blocks::rewind_options, crate::specs::Blocks::all_clear, lists::specs::Lists::all))]
fn rewind_options(w: usize) -> bool
    ensures { result ≡ rewind_options w }
{
    clear(w, 14) && clear(w, 13) && clear(w, 3) && clear(w, 0) && transfer_options(w)
}

/// The selector, 0 to 3, that an options word has.
pub(crate) fn selector(w: usize) -> u32
    ensures { result ≡ selector_in w }
{
    (w / 8192 % 4) as u32
}

/// Whether an options word asks for a formatted transfer.
#[tactic(auto, using(lists::proofs::Steps::bool_steps), unfolding(crate::specs::Blocks::formatted_in))]
pub(crate) fn formatted(w: usize) -> bool
    ensures { result ≡ formatted_in w }
{
    clear(w, 3) && clear(w, 0)
}

/// The options word of a block.
pub(crate) fn options(block: &Block) -> usize
    ensures { (result ≡ options_of block.now) × (result < 65536) }
{
    word_at(block, OPTIONS_AT)
}

/// Whether a block asks for a read, a write or an update.
#[tactic(auto, using(lists::proofs::Steps::bool_steps), unfolding(crate::specs::Blocks::is_transfer))]
pub(crate) fn is_transfer(block: &Block) -> bool
    ensures { result ≡ is_transfer block.now }
{
    block[CODE_AT] == TRANSFER
        && matches!(block[FUNCTION_AT], READ | WRITE | UPDATE)
        && transfer_options(options(block))
}

/// Whether a block asks for a rewind.
#[tactic(auto, using(lists::proofs::Steps::bool_steps), unfolding(crate::specs::Blocks::is_rewind))]
pub(crate) fn is_rewind(block: &Block) -> bool
    ensures { result ≡ is_rewind block.now }
{
    block[CODE_AT] == CONTROL && block[FUNCTION_AT] == REWIND && rewind_options(options(block))
}

/// Writes an answer's number and length into a block.
pub(crate) fn write_answer(block: &mut [u8], a: Answer)
    requires { length block.old ≡ block_size }
    ensures { block.new ≡ block_after a block.old }
{
    // Stays: a slice with its length in a clause, since C lends one; and `as`, since `usize::from` takes no u32.
    block[STATUS_AT] = status_of(a);
    put_long(block, LENGTH_AT, moved_of(a) as usize);
}
