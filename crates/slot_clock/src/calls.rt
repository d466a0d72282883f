// What all slot clocks do alike with what they hold.
ghost use Rattle.std.specs.Prelude.{◌≡◌, ◌+◌, ◌-◌, ◌*◌, ◌<◌, ◌≤◌, length, replicate, IfOk, Ok, Err, MatchResult, slice_set};
ghost use Rattle.slot_clock.specs.Calls.{made_answer, made_state, add_answer, add_after, run_answer, run_after, owed_answer};
ghost use Rattle.slot_clock.specs.Held.{weights_of, next_of, held_state, Room, cursor_after, stamp_from};

use crate::held::Held;
use crate::layout::Layout;
use crate::limits::{LAST_TICK, LONGEST, MOST_OWED, SESSIONS};
use crate::refusal::ClockRefusal;
use arrayvec::ArrayVec;

impl Held {
    pub fn weights(&self) -> &[u64]
        ensures { result.now ≡ weights_of self.now }
    {
        &self.layout.weights
    }

    pub fn nexts(&self) -> &[u64]
        ensures { result.now ≡ next_of self.now }
    {
        &self.next
    }

    // Nothing is owed, and no tick has passed.
    pub fn make(weights: &[u64]) -> Result<Held, ClockRefusal>
        ensures made { made_state held_state result ≡ made_answer weights.now }
        ensures fresh { IfOk result (λ h. (h.cursor ≡ 0) × (next_of h ≡ replicate (length (weights_of h)) 0)) }
    {
        let layout = Layout::make(weights)?;
        let mut next = ArrayVec::from([0; SESSIONS]);
        next.truncate(weights.len());
        Ok(Held {
            layout,
            next,
            cursor: 0,
            ticks: 0,
            owed: 0,
        })
    }

    // The slot from which a packet's slots are looked for, or why the packet is refused. (It and the two arguments go on side by side: as one value they
    // would still be asked against the clock at each use, since a clock may have changed meanwhile.)
    pub fn room(&self, session: u64, size: u64) -> Result<u64, ClockRefusal>
        ensures { MatchResult result (λ q. Room self.now session size q) (λ e. add_answer (held_state self.now) session size ≡ Err e) }
    {
        let Some(next) = self.next.get(session as usize) else {
            return Err(ClockRefusal::UnknownSession);
        };
        if size == 0 || size > LONGEST {
            return Err(ClockRefusal::Size);
        }
        if self.owed + size > MOST_OWED {
            return Err(ClockRefusal::TooMuchOwed);
        }
        Ok(self.cursor.max(*next))
    }

    // The session gets every slot of its own up to the stamp.
    pub fn grant(&mut self, session: u64, size: u64, from: u64, stamp: u64)
        requires room { Room self.old session size from }
        requires stamp { stamp ≡ stamp_from self.old session size from }
        ensures answer { add_answer (held_state self.old) session size ≡ Ok stamp }
        ensures after { held_state self.new ≡ add_after (held_state self.old) session size }
        ensures next { (self.new.cursor ≡ self.old.cursor) × (next_of self.new ≡ slice_set (next_of self.old) session (stamp + 1)) }
    {
        self.next[session as usize] = stamp + 1;
        self.owed += size;
    }

    // Whether so many ticks may be run.
    pub fn lasts(&self, ticks: u64) -> Result<(), ClockRefusal>
        ensures { MatchResult result (λ _. self.now.ticks + ticks ≤ 17592186044416) (λ e. (Err e ≡ run_answer (held_state self.now) ticks) × (held_state self.now ≡ run_after (held_state self.now) ticks)) }
    {
        if ticks > LAST_TICK - self.ticks {
            return Err(ClockRefusal::TicksPastEnd);
        }
        Ok(())
    }

    // V has come to where so many ticks bring it.
    pub fn pass(&mut self, ticks: u64, to: u64)
        requires few { self.old.ticks + ticks ≤ 17592186044416 }
        requires there { to ≡ cursor_after self.old ticks }
        ensures answer { run_answer (held_state self.old) ticks ≡ Ok tt }
        ensures after { held_state self.new ≡ run_after (held_state self.old) ticks }
        ensures next { (self.new.cursor ≡ to) × (next_of self.new ≡ next_of self.old) }
    {
        self.cursor = to;
        self.ticks += ticks;
        self.owed = self.owed.saturating_sub(ticks);
    }

    // V.
    pub fn cursor(&self) -> u64
        ensures { result ≡ (held_state self.now).cursor }
    {
        self.cursor
    }

    // How many bytes a session is owed: its slots from V on that are below its next.
    pub fn owed_to(&self, session: u64) -> Result<u64, ClockRefusal>
        ensures { result ≡ owed_answer (held_state self.now) session }
    {
        let session = session as usize;
        let Some(next) = self.next.get(session) else {
            return Err(ClockRefusal::UnknownSession);
        };
        let until = self.layout.own_below(session, *next);
        Ok(until.saturating_sub(self.layout.own_below(session, self.cursor)))
    }
}
