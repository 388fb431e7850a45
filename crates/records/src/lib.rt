// Streams and records over a list of sectors, with no directory. Every function is proved equal to a definition of specs/.
#![tactic(auto)]

pub mod chunks;
pub mod encoding;
pub mod record;
pub mod stream;
