// Free numbers, kept in a map along a tape.
#![tactic(auto)]

pub mod map;
