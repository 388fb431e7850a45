// Transfers of text: which they are, and which bytes may be sent as a text.
#![tactic(auto, using(lists::proofs::Steps::bool_steps, std::proofs::lemmas::Bool::Decides::nat_tests), unfolding(crate::specs::Transfers::as_text, crate::specs::Code::Runs::text_fits))]

ghost use Rattle.std.specs.Prelude.{◌≡◌, false};
ghost use Rattle.volume.specs.Directory.{entry_at, contiguous};
ghost use Rattle.files.specs.Code.Slots.{InUse};
ghost use Rattle.work.specs.Transfers.{as_text};
ghost use Rattle.work.specs.Code.Runs.{text_fits};

use numbers::RECORD_LIMIT;
use text::packing::is_text;
use volume::directory::{entry_of, record_length};
use volume::locate::Layout;

/// Whether a transfer to or from the sequential file in a slot is one of text: it is asked for as formatted, and the file's records
/// are variable.
pub fn as_text(image: &[u8], p: Layout, slot: usize, formatted: bool) -> bool
    requires { InUse image.now p slot × (contiguous (entry_at image.now slot) ≡ false) }
    ensures { result ≡ as_text formatted (entry_at image.now slot) }
{
    formatted && record_length(entry_of(image, p, slot)) == 0
}

/// Whether these bytes may be sent as a text: no more than the record limit before they are packed, each below $80.
pub fn text_fits(data: &[u8]) -> bool
    ensures { result ≡ text_fits «data».now }
{
    data.len() <= RECORD_LIMIT && is_text(data)
}
