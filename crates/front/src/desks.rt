// Desks as they are lent: 192 bytes.
ghost use Rattle.std.specs.Prelude.{if◌then◌else◌, ◌≡◌, true, false, length, Ok, Err};
ghost use Rattle.work.specs.declared.Refusal.TheVariants.{NotSound};
ghost use Rattle.deskbytes.specs.DeskBytes.{desk_size, desk_form};
ghost use Rattle.desk.specs.declared.Reply.{Reply};
ghost use Rattle.front.specs.Front.{unpacked_desk, desk_after};

use desk::{Answer, Desk, Reply};
use work::Refusal;

/// The desk that 192 bytes of the form stand for.
pub fn open(bytes: &[u8]) -> Desk
    requires { length bytes.now ≡ desk_size }
    ensures { result ≡ unpacked_desk bytes.now }
{
    Desk {
        luns: deskbytes::unpack(bytes),
    }
}

/// Packs the desk after a call, if it was accepted, and hands its answer on.
pub(crate) fn keep(r: Reply, bytes: &mut [u8]) -> Answer
    requires { length bytes.old ≡ desk_size }
    ensures { (result ≡ r.answer) × (bytes.new ≡ desk_after r.answer r.desk bytes.old) }
{
    if r.answer.is_ok() {
        deskbytes::pack(r.desk.luns, bytes);
    }
    r.answer
}

/// The desk that bytes stand for. Refuses $6F for bytes that stand for none.
pub(crate) fn unpacked(bytes: &[u8]) -> Result<Desk, Refusal>
    ensures { result ≡ (if desk_form bytes.now then Ok (unpacked_desk bytes.now) else Err NotSound) }
{
    if deskbytes::in_form(bytes) {
        Ok(open(bytes))
    } else {
        Err(Refusal::NotSound)
    }
}

/// Carries a call out on the desk that bytes stand for, and packs the desk after it. Refuses $6F for bytes that stand for no desk; a
/// refused call leaves the bytes.
pub(crate) fn serve<F: FnOnce(Desk) -> Reply>(bytes: &mut [u8], call: F) -> Answer
    requires { F.IsAlwaysCallable call }
    ensures bad { desk_form bytes.old ≡ false → (result ≡ Err NotSound) × (bytes.new ≡ bytes.old) }
    ensures good { desk_form bytes.old ≡ true → (r : Reply) × F.post call (unpacked_desk bytes.old) r
        × (result ≡ r.answer) × (bytes.new ≡ desk_after r.answer r.desk bytes.old) }
{
    let d = unpacked(bytes)?;
    keep(call(d), bytes)
}
