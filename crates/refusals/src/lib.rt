// What a request is refused for, decided on the words of a table; and the two requests that change one row alone.
#![tactic(auto)]

pub mod one_row;
pub mod requests;
