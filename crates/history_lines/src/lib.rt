// A history is answered line by line, by any clerk.

#![tactic(auto)]

pub mod clerk;
pub mod lines;
