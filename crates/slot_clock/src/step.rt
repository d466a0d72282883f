// A slot clock that goes slot by slot. It looks at one slot after another and asks whose it is; it stops once as many
// were served as ticks passed or as bytes were owed, so that it does not go on when nothing is owed.
ghost use Rattle.std.specs.Prelude.{◌≡◌, ◌+◌, ◌*◌, ◌^◌, ◌<◌, ◌≤◌, true, length};
ghost use Rattle.tick_machine.specs.Lists.{final};
ghost use Rattle.tick_machine.specs.Slots.{round_length, own_slots};
ghost use Rattle.tick_machine.specs.Owed.{owed_slots};
ghost use Rattle.slot_clock.specs.Calls.{no_zero};
ghost use Rattle.slot_clock.specs.Walk.{ticks_cursor, Tops};
ghost use Rattle.slot_clock.specs.Held.{held_state, Room, cursor_after, stamp_from};
ghost use Rattle.slot_clock.specs.Holding.{held_served, held_sized, held_early, held_near};

use crate::clock::SlotClock;
use crate::held::Held;
use crate::layout::owner_of;
use crate::refusal::ClockRefusal;

// V after so many ticks. A `while`: it counts the slots that it looks at and the ticks that it serves apart, so that no range of either ends it, and by
// `nth`, as below, a move that serves no slot would be a case of its own.
fn walk(weights: &[u64], round: u64, next: &[u64], cursor: u64, owed: u64, ticks: u64) -> u64
    requires whole { round ≡ round_length weights.now }
    requires some { 0 < round }
    requires same { length next.now ≡ length weights.now }
    requires tops { Tops weights.now next.now }
    requires owed { owed ≡ length (owed_slots weights.now cursor next.now) }
    ensures { result ≡ ticks_cursor weights.now next.now ticks cursor }
{
    let mut v = cursor;
    let mut left = ticks.min(owed);
    while left > 0 {
        if v < next[owner_of(weights, round, v)] {
            left -= 1;
        }
        v += 1;
    }
    v
}

// The stamp: the highest of the session's so many lowest slots from a slot on. Each round has one of its slots, so that as many
// rounds have them all.
fn walk_stamp(weights: &[u64], round: u64, session: usize, size: u64, from: u64) -> u64
    requires whole { round ≡ round_length weights.now }
    requires some { 0 < round }
    requires each { no_zero weights.now ≡ true }
    requires known { session < length weights.now }
    requires long { 1 ≤ size }
    requires near { from + size * round < 2 ^ 62 }
    ensures { result ≡ final 0 (own_slots weights.now session size from) }
{
    (from..from + size * round)
        .filter(|q| owner_of(weights, round, *q) == session)
        .nth((size - 1) as usize)
        .unwrap()
}

fn after(held: &Held, ticks: u64) -> u64
    ensures { result ≡ cursor_after held.now ticks }
{
    walk(
        held.weights(),
        held.layout.slots,
        held.nexts(),
        held.cursor,
        held.owed,
        ticks,
    )
}

fn stamp_of(held: &Held, session: u64, size: u64, from: u64) -> u64
    requires { Room held.now session size from }
    ensures { result ≡ stamp_from held.now session size from }
{
    walk_stamp(
        held.weights(),
        held.layout.slots,
        session as usize,
        size,
        from,
    )
}

#[derive(Drop)]
pub struct StepClock {
    held: Held,
}

impl SlotClock for StepClock {
    ghost state = { λ c. held_state c.held };

    ghost served = { λ c. held_served c.held };

    ghost sized = { λ c. held_sized c.held };

    ghost early = { λ c. held_early c.held };

    ghost near = { λ c. held_near c.held };

    fn make(weights: &[u64]) -> Result<StepClock, ClockRefusal> {
        let held = Held::make(weights)?;
        Ok(StepClock { held })
    }

    fn add(&mut self, session: u64, size: u64) -> Result<u64, ClockRefusal> {
        let from = self.held.room(session, size)?;
        let stamp = stamp_of(&self.held, session, size, from);
        self.held.grant(session, size, from, stamp);
        Ok(stamp)
    }

    fn run(&mut self, ticks: u64) -> Result<(), ClockRefusal> {
        self.held.lasts(ticks)?;
        let to = after(&self.held, ticks);
        self.held.pass(ticks, to);
        Ok(())
    }

    fn cursor(&self) -> u64 {
        self.held.cursor()
    }

    fn owed(&self, session: u64) -> Result<u64, ClockRefusal> {
        self.held.owed_to(session)
    }
}
