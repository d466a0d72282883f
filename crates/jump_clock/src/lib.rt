// The slot clock that jumps. It holds V, each session's next and the busy sessions, those with V below their next, in a
// heap by the slot in which each runs dry. Up to the first such slot the same sessions are owed, so whole rounds are one
// division and the rest of a round one walk over the sessions. A run jumps once for each session that runs dry in it, and
// at most once more; each jump costs a few walks over the sessions.

#![tactic(auto)]

pub mod busy;
pub mod dry;
pub mod jump;
pub mod jumping;
