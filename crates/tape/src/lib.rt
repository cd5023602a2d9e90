// A tape of requests, carried out on a lent table.
#![tactic(auto)]

pub mod turns;
