// How time passes at a link: stretch by stretch, and never tick by tick.
ghost use Rattle.std.specs.Prelude.{◌≡◌, ℕ, ◌+◌, ◌-◌, ◌<◌, ◌≤◌};
ghost use Rattle.std.specs.VecDeque.{deque_len};
ghost use Rattle.tick_machine.specs.Machine.{Config, Machine, ticks};
ghost use Rattle.link.specs.Stretch.{loaded, reach as reach_of, send_bytes, Carries};
ghost use Rattle.tick_machine.specs.Life.{told};
ghost use Rattle.tick_machine.specs.declared.call.Call.TheVariants.{MoveTo};
ghost use Rattle.tick_machine.specs.declared.call.Answer.TheVariants.{Moved};
ghost use Rattle.link.specs.Shown.{Shown, Turns};
ghost use Rattle.link.specs.Promise.{Keeps};

use super::Link;
use crate::limits::LAST_TICK;
use crate::session::note_sent;
use crate::table::place;
use slot_clock::clock::SlotClock;
use tick_machine::packet::{Departed, Sending};
use tick_machine::refusal::Refusal;
use waiting_line::line::WaitingLine;

impl<W: WaitingLine, S: SlotClock> Link<W, S> {
    // A free line takes the waiting packet of the least stamp. (A packet that waits stands in the table, and is not empty.)
    fn load(&mut self)
        ensures shows { Turns W.WaitingLine S.SlotClock self.old (λ c m. loaded m) self.new }
        ensures clock { self.new.clock ≡ self.old.clock }
    {
        match (self.line, self.waiting.least()) {
            (None, Some(pair)) => {
                if let Some(i) = place(&self.table, pair.packet) {
                    let packet = self.table.remove(i);
                    let _ = self.waiting.take();
                    if packet.size > 0 {
                        self.line = Some(Sending {
                            packet,
                            started: self.clock,
                            rest: packet.size,
                        });
                    }
                }
            }
            (None, None) | (Some(_), _) => {}
        }
    }

    // How many of so many ticks pass before the line changes.
    fn reach(&self, span: u64) -> u64
        ensures { result ≡ reach_of self.now.line span }
    {
        match self.line {
            None => span,
            Some(sending) => span.min(sending.rest),
        }
    }

    // So many bytes of the packet on the line are sent; after its last byte it has left.
    fn send(&mut self, bytes: u64)
        ensures shows { (c : Config) (m : Machine) → Shown W.WaitingLine S.SlotClock c m self.old → Carries c bytes m → Shown W.WaitingLine S.SlotClock c (send_bytes bytes m) self.new }
        ensures clock { self.new.clock ≡ self.old.clock }
    {
        if let Some(sending) = self.line {
            note_sent(&mut self.sessions, sending.packet.session, bytes);
            if bytes < sending.rest {
                self.line = Some(Sending {
                    rest: sending.rest - bytes,
                    ..sending
                });
            } else {
                self.line = None;
                self.left.push_back_reserved(Departed {
                    packet: sending.packet,
                    started: sending.started,
                    left: self.clock,
                });
            }
        }
    }

    // One stretch: until the packet on the line has left, or until the tick.
    fn stretch(&mut self, until: u64)
        requires ahead { self.old.clock < until }
        requires last { until ≤ 17592186044416 }
        ensures shows { Turns W.WaitingLine S.SlotClock self.old (λ c m. ticks c (self.new.clock - self.old.clock) m) self.new }
        ensures on { (self.old.clock < self.new.clock) × (self.new.clock ≤ until) }
    {
        self.load();
        let ticks = self.reach(until - self.clock);
        let _ = self.slots.run(ticks);
        self.clock += ticks;
        self.send(ticks);
    }

    // How many packets have left since there were so many of them.
    fn left_since(&self, before: usize) -> u64
        ensures { result ≡ deque_len self.now.left - before }
    {
        self.left.len().saturating_sub(before) as u64
    }

    // Does ticks until the clock is there: how many packets left in it.
    pub fn move_to(&mut self, tick: u64) -> Result<u64, Refusal>
        ensures { Keeps W.WaitingLine S.SlotClock self.old (MoveTo tick) (told (Moved tick) result) self.new }
    {
        if tick < self.clock {
            return Err(Refusal::TickPassed);
        }
        if tick > LAST_TICK {
            return Err(Refusal::PastTheEnd);
        }
        let before = self.left.len();
        while self.clock < tick {
            self.stretch(tick);
        }
        Ok(self.left_since(before))
    }
}
