// Slot clocks: they do the round server's work with a few numbers.

#![tactic(auto)]

pub mod calls;
pub mod clock;
pub mod held;
pub mod layout;
pub mod limits;
pub mod refusal;
pub mod step;
pub mod theorems;
