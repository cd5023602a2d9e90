// The steps of a change on the words of a table: patches linked in and taken out.
#![tactic(auto)]

pub mod links;
pub mod patches;
