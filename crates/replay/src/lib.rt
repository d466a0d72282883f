// Plays a whole history: a making, addings, the opening and calls, over any waiting line and any slot clock.

#![tactic(auto)]

pub mod adding;
pub mod desk;
pub mod play;
pub mod played;
