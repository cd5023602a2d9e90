// The lent table: every read and write of its words.
#![tactic(auto)]

pub mod flag_bits;
pub mod plain;
pub mod words;
pub mod writes;
