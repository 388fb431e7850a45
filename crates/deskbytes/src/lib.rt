// Sixteen LUNs kept as 192 bytes, twelve a LUN: packed, judged, and read back.
#![tactic(auto, using(lists::proofs::Steps::bool_steps), unfolding(crate::specs::DeskBytes::lun_form, crate::specs::DeskBytes::place_in, crate::specs::DeskBytes::unpacked_lun, crate::specs::DeskBytes::packed_lun, lists::specs::Parts::blanks, luns::specs::Modes::mode_of, luns::specs::Code::Numbers::mode_or))]

ghost use Rattle.std.specs.Prelude.{◌≡◌, length};
ghost use Rattle.deskbytes.specs.DeskBytes.{desk_size, count_of, first_of, packed_lun, packed_luns};
ghost use Rattle.deskbytes.specs.DeskBytes.{lun_form, desk_form, place_in, unpacked_lun, unpacked_luns};

use lists::parts::{all_zero, long_at};
use luns::{Lun, Mode, Place};
use numbers::LUNS;
use std::convert::TryFrom;

/// Bytes of a LUN.
pub const LUN_BYTES: usize = 12;

/// Bytes of a desk.
pub const DESK_BYTES: usize = LUN_BYTES * LUNS;

// A packed LUN.
type Packed = [u8; LUN_BYTES];

// What a place has moved, 0 when Fresh.
// Stays: this and `first_of` are the definitions of the same names, one line each.
fn count_of(p: Place) -> u32
    ensures { result ≡ count_of p }
{
    match p {
        Place::Fresh => 0,
        Place::At { n, .. } => n,
    }
}

// Where a place is, 0 when Fresh.
fn first_of(p: Place) -> u32
    ensures { result ≡ first_of p }
{
    match p {
        Place::Fresh => 0,
        Place::At { i, .. } => i,
    }
}

// Packs a LUN into its twelve bytes.
fn packed_lun(u: Lun) -> Packed
    ensures { result ≡ packed_lun u }
{
    if !u.held {
        return [0; LUN_BYTES];
    }
    // Stays: `as` after `%`, here and below: a number that is too large keeps its lowest bytes, and `try_from` would refuse it.
    let user = ((u.user % 65536) as u16).to_be_bytes();
    let i = first_of(u.place).to_be_bytes();
    [
        1,
        u.mode.number(),
        user[0],
        user[1],
        (u.slot % 256) as u8,
        (count_of(u.place) % 256) as u8,
        u.offered,
        0,
        i[0],
        i[1],
        i[2],
        i[3],
    ]
}

/// Packs sixteen LUNs.
// Stays: `out` is a slice, as `bytes` of `unpack` is: the callers lend what C passed them, a pointer and a length.
pub fn pack(luns: [Lun; LUNS], out: &mut [u8])
    requires { length out.old ≡ desk_size }
    ensures { out.new ≡ packed_luns luns }
{
    for (k, u) in luns.iter().enumerate() {
        out[LUN_BYTES * k..LUN_BYTES * k + LUN_BYTES].copy_from_slice(&packed_lun(*u));
    }
}

// Whether twelve bytes stand for a LUN.
fn lun_form(b: &Packed) -> bool
    ensures { result ≡ lun_form b.now }
{
    all_zero(b) || (b[0] == 1 && b[1] <= 7 && b[7] == 0 && (b[5] != 0 || long_at(b, 8) == 0))
}

/// Whether bytes stand for a desk: 192, and twelve by twelve a LUN's.
pub fn in_form(bytes: &[u8]) -> bool
    ensures { result ≡ desk_form bytes.now }
{
    bytes.len() == DESK_BYTES && bytes.as_chunks::<LUN_BYTES>().0.iter().all(lun_form)
}

// The place that twelve bytes stand for.
fn place_in(b: &Packed) -> Place
    ensures { result ≡ place_in b.now }
{
    if b[5] == 0 {
        return Place::Fresh;
    }
    Place::At {
        i: u32::from_be_bytes([b[8], b[9], b[10], b[11]]),
        n: u32::from(b[5]),
    }
}

// The LUN that twelve bytes stand for.
fn unpacked_lun(b: &Packed) -> Lun
    ensures { result ≡ unpacked_lun b.now }
{
    if b[0] == 0 {
        return Lun::free();
    }
    Lun {
        held: true,
        user: u32::from(u16::from_be_bytes([b[2], b[3]])),
        slot: u32::from(b[4]),
        mode: Mode::try_from(u32::from(b[1])).unwrap_or(Mode::Erew),
        offered: b[6],
        place: place_in(b),
    }
}

/// The sixteen LUNs that 192 bytes stand for.
pub fn unpack(bytes: &[u8]) -> [Lun; LUNS]
    requires { length bytes.now ≡ desk_size }
    ensures { result ≡ unpacked_luns bytes.now }
{
    let mut luns = [Lun::free(); LUNS];
    for (k, b) in bytes.as_chunks::<LUN_BYTES>().0.iter().enumerate() {
        luns[k] = unpacked_lun(b);
    }
    luns
}
