// The plain part: bytes, words and parts of a lent image. Every function is proved equal to a definition of specs/; proofs/ has the
// laws of lists, words and parts that all layers cite.
#![tactic(auto)]

pub mod parts;
