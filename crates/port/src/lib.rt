// A link for programs in C or Rust: calls and answers cross as records of plain numbers. A link lives for the length of one
// call, since nothing that holds memory crosses: either all its calls come in one list, or they come one by one by a descriptor.

#![tactic(auto)]

pub mod bytes;
pub mod exports;
pub mod preparing;
pub mod reading;
pub mod records;
mod serving;
pub mod telling;
pub mod turns;
