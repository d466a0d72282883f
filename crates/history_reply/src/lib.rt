// What a line of a history is answered, and how that reads. specs/Transcript says what is printed for any input.

#![tactic(auto)]

pub mod printing;
pub mod replies;
pub mod samples;
