// The busy sessions.
ghost use Rattle.std.specs.Prelude.{◌<◌, ◌≤◌, length};
ghost use Rattle.jump_clock.specs.Ends.{Ordered};

use arrayvec::ArrayVec;

// A busy session, and one more than the slot in which it runs dry.
#[derive(Clone, Copy, Default)]
pub struct Dry {
    pub end: u64,
    pub session: usize,
}

// The busy sessions, as a heap. (Not heap_order's `Heap`, which lies in memory that is asked for: a clock asks for none.)
#[derive(Drop)]
pub struct Busy {
    pub places: ArrayVec<Dry, 64>,
    ghost few: { length places.items ≤ 64 },
    ghost ordered: { Ordered places.items },
}
