// The tests of a row's place in the tree of patches: its parent, its kids and its neighbours.
#![tactic(auto)]

pub mod family;
pub mod sides;
