// Logical units (LUNs): modes, places, and whether sixteen of them fit a volume. Every function is proved equal to a definition of
// specs/.
#![tactic(auto)]

pub mod fits;
pub mod holding;
pub mod modes;
pub mod places;

/// The access permissions, by their house numbers 0 to 7: P is public, E exclusive.
#[derive(Clone, Copy, Debug, PartialEq, Eq)]
pub enum Mode {
    Pr = 0,
    Er = 1,
    Pw = 2,
    Ew = 3,
    Prpw = 4,
    Prew = 5,
    Erpw = 6,
    Erew = 7,
}

// Stays: no Option, since the definitions of specs/Luns (free_lun, target, placeless, place_exists) name its two cases.
/// Where a LUN stands in its file: nowhere yet, or at record (or sector) i with n of them moved.
#[derive(Clone, Copy, Debug, PartialEq, Eq)]
pub enum Place {
    Fresh,
    At { i: u32, n: u32 },
}

/// A logical unit. It keeps the read-protect code that was offered for its file. What a free one holds besides its flag is not read.
#[derive(Clone, Copy, Debug, PartialEq, Eq)]
pub struct Lun {
    // Stays: a flag beside the rest, since the definitions of what a desk is name these fields, and packed desks hold them all.
    pub held: bool,
    pub user: u32,
    pub slot: u32,
    pub mode: Mode,
    pub offered: u8,
    pub place: Place,
}
