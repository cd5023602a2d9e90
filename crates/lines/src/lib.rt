// The lines of a page, put where there is room for them: words and numbers, and the lines of leaves.
#![tactic(auto)]

pub mod leaf_lines;
pub mod listed;
pub mod numerals;
pub mod sheets;
