// The limits of a link.

// The end of every clock.
pub const LAST_TICK: u64 = 17_592_186_044_416;

// The last number that a link may have.
pub const LAST_LINK: u64 = 65_535;

// How many bytes a link's longest packet may have.
pub const LONGEST: u64 = 65_535;

// How many packets a waiting line may have room for.
pub const ROOMIEST: u64 = 1_024;

// How many packets may be unsettled.
pub const UNSETTLED: usize = 1024;

// How many sessions there may be.
pub const SESSIONS: usize = 64;

// What the weights of the sessions may sum up to.
pub const HEAVIEST: u64 = 4096;
