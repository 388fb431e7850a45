// How a transfer to or from a sequential file codes its bytes: as they are sent, or as a text that is stored packed.
#![tactic(auto, unfolding(crate::specs::Code::Runs::text_fits))]

ghost use Rattle.std.specs.Prelude.{◌≡◌, true, false, not, ℕ, List, Bool, ◌+◌, ◌*◌, ◌≤◌, length};
ghost use Rattle.numbers.specs.Numbers.{record_limit};
ghost use Rattle.lists.specs.Parts.{part};
ghost use Rattle.volume.specs.Directory.{contiguous, record_length};
ghost use Rattle.text.specs.Packing.{packed, unpacked, most_spaces};
ghost use Rattle.records.specs.Records.{allowed};
ghost use Rattle.records.specs.Streams.{laid_out};
ghost use Rattle.work.specs.Transfers.{as_text, stored_as, handed_as, unfit};
ghost use Rattle.work.specs.Code.Codings.{same, text_fits_in, handed, buffer_after};

use crate::Refusal;
use crate::lengths::allowed;
use crate::texts::text_fits;
use numbers::RECORD_LIMIT;
use records::stream::Stream;
use text::packing::pack;
use text::unpacking::{text_length, unpack};

/// How the bytes of a transfer to or from a sequential file are stored and handed over.
pub trait Coding {
    // whether it is of text; which bytes may be sent to a file of a record length; what is stored for them; what is handed over of that; how
    // long a room it takes to make what is stored
    ghost text: { Bool };

    ghost fits: { ℕ → List ℕ → Bool };

    ghost coded: { List ℕ → List ℕ };

    ghost shown: { List ℕ → List ℕ };

    ghost wanted: { ℕ };

    /// Whether these bytes may be sent to a file of record length l, 0 for variable ones.
    fn may_send(l: usize, bytes: &[u8]) -> bool
        ensures { result ≡ fits l bytes.now };

    /// What is stored for the bytes. It may stand in the room lent.
    fn store<'a>(bytes: &'a [u8], room: &'a mut [u8]) -> &'a [u8]
        requires { (length bytes.now ≤ record_limit) × (wanted ≤ length room.old) }
        ensures { result.now ≡ coded bytes.now };

    /// Hands over the record that is stored in the `len` bytes of a stream from `from` on: writes it to the front of the buffer, and
    /// answers how many bytes it is. Refuses a buffer that is shorter, and leaves it.
    fn hand_over(
        stream: &Stream<'_>,
        from: usize,
        len: usize,
        buffer: &mut [u8],
    ) -> Result<usize, Refusal>
        requires { (from + len ≤ 256 * length stream.now.map.now) × (len ≤ record_limit) }
        ensures { (result ≡ handed (shown (part from len (laid_out stream.now.img.now stream.now.map.now))) buffer.old)
            × (buffer.new ≡ buffer_after (shown (part from len (laid_out stream.now.img.now stream.now.map.now))) buffer.old)
            × (length (shown (part from len (laid_out stream.now.img.now stream.now.map.now))) ≤ most_spaces * len) };

    // in a sequential file in which it is of text if it is asked for as such, it is what the rules say
    ghost unfit_by: { (e bs : List ℕ) → contiguous e ≡ false → as_text text e ≡ text → unfit text e bs ≡ not (fits (record_length e) bs) };

    ghost stored_by: { (e bs : List ℕ) → as_text text e ≡ text → stored_as text e bs ≡ coded bs };

    ghost handed_by: { (e ss : List ℕ) → as_text text e ≡ text → handed_as text e ss ≡ shown ss };

    ghost short: { (l : ℕ) (bs : List ℕ) → fits l bs ≡ true → length bs ≤ record_limit };
}

/// The bytes are stored and handed over as they are.
#[derive(Clone, Copy, Debug, PartialEq, Eq)]
pub struct Plain;

/// The bytes are a text, which is stored packed.
#[derive(Clone, Copy, Debug, PartialEq, Eq)]
pub struct Text;

impl Coding for Plain {
    ghost use Rattle.work.specs.Code.CodingLaws.{plain_unfit_by, plain_stored_by, plain_handed_by, plain_short};

    ghost text = { false };

    ghost fits = { allowed };

    ghost coded = { same };

    ghost shown = { same };

    ghost wanted = { 0 };

    fn may_send(l: usize, bytes: &[u8]) -> bool {
        allowed(l, bytes)
    }

    fn store<'a>(bytes: &'a [u8], _room: &'a mut [u8]) -> &'a [u8] {
        bytes
    }

    fn hand_over(
        stream: &Stream<'_>,
        from: usize,
        len: usize,
        buffer: &mut [u8],
    ) -> Result<usize, Refusal> {
        if buffer.len() < len {
            return Err(Refusal::BadLength);
        }
        stream.read(from, len, buffer);
        Ok(len)
    }

    ghost unfit_by = { λ e bs c t. plain_unfit_by e bs c };

    ghost stored_by = { λ e bs t. plain_stored_by e bs };

    ghost handed_by = { λ e ss t. plain_handed_by e ss };

    ghost short = { λ l bs h. plain_short l bs h };
}

impl Coding for Text {
    ghost use Rattle.work.specs.Code.CodingLaws.{text_unfit_by, text_stored_by, text_handed_by, text_short};

    ghost text = { true };

    ghost fits = { text_fits_in };

    ghost coded = { packed };

    ghost shown = { unpacked };

    ghost wanted = { record_limit };

    fn may_send(_l: usize, bytes: &[u8]) -> bool {
        text_fits(bytes)
    }

    fn store<'a>(bytes: &'a [u8], room: &'a mut [u8]) -> &'a [u8] {
        let n = pack(bytes, room);
        &room[..n]
    }

    fn hand_over(
        stream: &Stream<'_>,
        from: usize,
        len: usize,
        buffer: &mut [u8],
    ) -> Result<usize, Refusal> {
        let mut room = [0u8; RECORD_LIMIT];
        stream.read(from, len, &mut room);
        let stored = &room[..len];
        let n = text_length(stored);
        if buffer.len() < n {
            return Err(Refusal::BadLength);
        }
        unpack(stored, buffer);
        Ok(n)
    }

    ghost unfit_by = { λ e bs c t. text_unfit_by e t bs c };

    ghost stored_by = { λ e bs t. text_stored_by e t bs };

    ghost handed_by = { λ e ss t. text_handed_by e t ss };

    ghost short = { λ l bs h. text_short l bs h };
}
