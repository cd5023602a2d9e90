// The rows near a cell: its kids, and the kids of its neighbours at its corners and sides; what a refinement and a removal write there.
#![tactic(auto)]

pub mod spots;
