// The dossier page: its leaves are found once, its length is counted, and then it is put into the output.
#![tactic(auto)]

pub mod pages;
