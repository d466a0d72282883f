// Plays a list of steps on a link over any waiting line and any slot clock, and spends every slip on the way.

#![tactic(auto)]

pub mod play;
pub mod step;
