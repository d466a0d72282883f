// A jump, and a stamp in closed form.
ghost use Rattle.std.specs.Prelude.{◌≡◌, ◌+◌, ◌-◌, ◌<◌, ◌≤◌, slice_index};
ghost use Rattle.slot_clock.specs.Walk.{ticks_cursor};
ghost use Rattle.slot_clock.specs.Held.{Room, stamp_from};
ghost use Rattle.jump_clock.specs.Jumps.{Ahead};

use slot_clock::held::Held;
use slot_clock::layout::{rank_of, slot_from};

// V and the ticks that are left, once V has come to one past the slot in which the session `at` runs dry, or the ticks are spent.
pub fn jump(weights: &[u64], round: u64, next: &[u64], v: u64, at: usize, left: u64) -> (u64, u64)
    requires ahead { Ahead weights.now next.now round v at }
    requires ticks { 1 ≤ left }
    requires few { left ≤ 17592186044416 }
    ensures goes { ticks_cursor weights.now next.now result.1 result.0 ≡ ticks_cursor weights.now next.now left v }
    ensures less { result.1 < left }
    ensures within { result.0 ≤ slice_index next.now at }
    ensures ahead { v < result.0 }
    ensures dry { 1 ≤ result.1 → result.0 ≡ slice_index next.now at }
{
    let end = next[at];
    let busy = move |session: usize| v < next[session];
    let before = rank_of(weights, round, &busy, v);
    let through = rank_of(weights, round, &busy, end) - before;
    if through <= left {
        (end, left - through)
    } else {
        (slot_from(weights, round, &busy, v, left - 1) + 1, 0)
    }
}

// The highest of the session's so many lowest slots from a slot on.
pub fn jump_stamp(held: &Held, session: u64, size: u64, from: u64) -> u64
    requires { Room held.now session size from }
    ensures { result ≡ stamp_from held.now session size from }
{
    let session = session as usize;
    let own = move |other: usize| other == session;
    slot_from(held.weights(), held.layout.slots, &own, from, size - 1)
}
