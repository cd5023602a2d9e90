// What the program `trials` reads and writes: numbers and lists by its input, and the lines that tell what a call answered and left. `vectors` and
// `dossier` read as it does.
#![tactic(auto)]

pub mod input;
pub mod lists;
pub mod report;
