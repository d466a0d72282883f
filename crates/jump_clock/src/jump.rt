// The slot clock that jumps from one slot in which a session runs dry to the next.
ghost use Rattle.std.specs.Prelude.{◌≡◌, ◌+◌, ◌≤◌, length, Ok, Err, MatchResult};
ghost use Rattle.slot_clock.specs.Calls.{add_answer, add_after, run_answer, run_after};
ghost use Rattle.slot_clock.specs.Held.{next_of, held_state, Room, cursor_after, stamp_from};
ghost use Rattle.jump_clock.specs.Dries.{items, Holds, busy_sessions, halfway};
ghost use Rattle.slot_clock.specs.Holding.{held_served, held_sized, held_early, held_near};

use crate::dry::{Busy, Dry};
use crate::jumping::{jump, jump_stamp};
use slot_clock::clock::SlotClock;
use slot_clock::held::Held;
use slot_clock::refusal::ClockRefusal;

#[derive(Drop)]
pub struct JumpClock {
    held: Held,
    busy: Busy,
    ghost holds: { Holds (items busy) held.cursor (next_of held) },
}

// V after so many ticks, and in how many jumps. A session that has run dry leaves the heap.
fn run_on(held: &Held, busy: &mut Busy, ticks: u64) -> (u64, u64)
    requires holds { Holds (items busy.old) held.now.cursor (next_of held.now) }
    requires few { ticks ≤ 17592186044416 }
    ensures is { result.0 ≡ cursor_after held.now ticks }
    ensures holds { Holds (items busy.new) result.0 (next_of held.now) }
    ensures jumps { result.1 + length (items busy.new) ≡ length (items busy.old) + halfway held.now.cursor result.0 (next_of held.now) }
{
    let mut v = held.cursor;
    let mut left = ticks;
    let mut jumps = 0;
    while left > 0 {
        let Some(first) = busy.first() else {
            break;
        };
        let (to, rest) = jump(
            held.weights(),
            held.layout.slots,
            held.nexts(),
            v,
            first.session,
            left,
        );
        if to == first.end {
            busy.drop_first();
        }
        v = to;
        left = rest;
        jumps += 1;
    }
    (v, jumps)
}

impl JumpClock {
    // The session gets every slot of its own up to the stamp, and is busy until it.
    fn grant(&mut self, session: u64, size: u64, from: u64, stamp: u64)
        requires room { Room self.old.held session size from }
        requires stamp { stamp ≡ stamp_from self.old.held session size from }
        ensures answer { add_answer (held_state self.old.held) session size ≡ Ok stamp }
        ensures after { held_state self.new.held ≡ add_after (held_state self.old.held) session size }
    {
        let dry = Dry {
            end: stamp + 1,
            session: session as usize,
        };
        match self.busy.find(dry.session) {
            Some(at) => self.busy.renew(at, dry),
            None => self.busy.enter(dry),
        }
        self.held.grant(session, size, from, stamp);
    }

    // Runs, and answers in how many jumps: one for each session that runs dry in the ticks, and one more if the slot served
    // last was not its session's last.
    pub fn run_told(&mut self, ticks: u64) -> Result<u64, ClockRefusal>
        ensures after { held_state self.new.held ≡ run_after (held_state self.old.held) ticks }
        ensures answer { MatchResult result (λ j. (run_answer (held_state self.old.held) ticks ≡ Ok tt) × (j + busy_sessions (held_state self.new.held) ≡ busy_sessions (held_state self.old.held) + halfway (held_state self.old.held).cursor (held_state self.new.held).cursor (held_state self.new.held).next)) (λ e. (run_answer (held_state self.old.held) ticks ≡ Err e) × (self.new ≡ self.old)) }
    {
        self.held.lasts(ticks)?;
        let (to, jumps) = run_on(&self.held, &mut self.busy, ticks);
        self.held.pass(ticks, to);
        Ok(jumps)
    }
}

// Readings and laws are those of `Held`, as in `StepClock`: each impl of the trait names them itself, which is no twin's code.
impl SlotClock for JumpClock {
    ghost state = { λ c. held_state c.held };

    ghost served = { λ c. held_served c.held };

    ghost sized = { λ c. held_sized c.held };

    ghost early = { λ c. held_early c.held };

    ghost near = { λ c. held_near c.held };

    fn make(weights: &[u64]) -> Result<JumpClock, ClockRefusal> {
        let held = Held::make(weights)?;
        Ok(JumpClock {
            held,
            busy: Busy::empty(),
        })
    }

    fn add(&mut self, session: u64, size: u64) -> Result<u64, ClockRefusal> {
        let from = self.held.room(session, size)?;
        let stamp = jump_stamp(&self.held, session, size, from);
        self.grant(session, size, from, stamp);
        Ok(stamp)
    }

    fn run(&mut self, ticks: u64) -> Result<(), ClockRefusal> {
        self.run_told(ticks)?;
        Ok(())
    }

    fn cursor(&self) -> u64 {
        self.held.cursor()
    }

    fn owed(&self, session: u64) -> Result<u64, ClockRefusal> {
        self.held.owed_to(session)
    }
}
