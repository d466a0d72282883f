// What every slot clock holds.
ghost use Rattle.std.specs.Prelude.{◌≡◌, ◌-◌, ◌*◌, ◌<◌, ◌≤◌, true, length};
ghost use Rattle.slot_clock.specs.Calls.{no_zero};
ghost use Rattle.tick_machine.specs.Owed.{owed_slots};
ghost use Rattle.slot_clock.specs.Walk.{Tops};

use crate::layout::Layout;
use crate::limits::SESSIONS;
use arrayvec::ArrayVec;

#[derive(Drop)]
pub struct Held {
    pub layout: Layout<SESSIONS>,
    // for each session one more than the highest slot that it ever got; beside the weights, and not in one list with them,
    // since those stay as they are made and all that is said of the layout is said of them alone
    pub next: ArrayVec<u64, SESSIONS>,
    pub cursor: u64,
    pub ticks: u64,
    // the number of bytes owed in all
    pub owed: u64,
    ghost small: { layout.slots ≤ 4096 },
    ghost each: { no_zero layout.weights.items ≡ true },
    ghost same: { length next.items ≡ length layout.weights.items },
    ghost tops: { Tops layout.weights.items next.items },
    ghost paced: { cursor ≤ ticks * layout.slots },
    ghost few: { ticks ≤ 17592186044416 },
    ghost sum: { owed ≡ length (owed_slots layout.weights.items cursor next.items) },
    ghost inside: { owed ≤ 67107840 },
}
