// The searches in the SAT, to be timed: each by the plain bit loop and by the library's own way. bench/search.c calls them.
#![tactic(auto)]

pub mod plain;
pub mod timed;
