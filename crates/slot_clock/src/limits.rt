// The limits of a slot clock that its code compares with. Its contracts write the same numbers.

// How many sessions there may be.
pub const SESSIONS: usize = 64;

// What their weights may sum up to: the slots of a round.
pub const HEAVIEST: u64 = 4096;

// How many bytes a packet may have: its length is a number of 16 bits.
pub const LONGEST: u64 = 65535;

// How many bytes may be owed in all: a link has at most 1,024 packets unsettled, each of at most 65,535 bytes.
pub const MOST_OWED: u64 = 1024 * LONGEST;

// The end of every clock, 2^44.
pub const LAST_TICK: u64 = 17_592_186_044_416;
