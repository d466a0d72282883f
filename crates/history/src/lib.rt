// A history of one link, run.

#![tactic(auto)]

pub mod clerk;
mod ending;
pub mod one_link;
pub mod run;
mod serving;
mod starting;
mod untimely;
