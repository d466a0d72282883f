// The text of a history as it is read: lines and fields, words and numbers, faults and commands.

#![tactic(auto)]

pub mod commands;
pub mod cuts;
pub mod faults;
mod fields;
mod numerals;
pub mod reading;
mod words;
