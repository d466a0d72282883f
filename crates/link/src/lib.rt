// The dispatcher of one line: a draft that takes sessions, the open link, and slips.

#![tactic(auto)]

pub mod draft;
pub mod error;
pub mod limits;
pub mod link;
pub mod session;
pub mod slip;
pub mod table;
