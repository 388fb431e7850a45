// The front for programs in C: the service over numbers and byte areas alone. The desk is lent as 192 bytes, a request as a block of 28
// bytes with two areas beside it. Each function of `gateway` takes any lengths and any bytes, and states one equation: what it returns, and
// every area after it, are those of specs/Front.
#![tactic(auto)]

pub mod areas;
pub mod blocks;
pub mod desks;
pub mod gateway;
pub mod reports;
pub mod requests;
pub mod verdicts;
