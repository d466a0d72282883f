// Packets come in.
ghost use Rattle.std.specs.Prelude.{◌≡◌, ℕ, ◌+◌, ◌<◌, ◌≤◌, vec_len, OnOk};
ghost use Rattle.std.specs.VecDeque.{deque_len};
ghost use Rattle.tick_machine.specs.Machine.{Config, Machine};
ghost use Rattle.tick_machine.specs.Life.{on_line, told, arrived};
ghost use Rattle.tick_machine.specs.declared.call.Call.TheVariants.{Arrive};
ghost use Rattle.link.specs.Admission.{admission};
ghost use Rattle.link.specs.Shown.{Shown};
ghost use Rattle.link.specs.Promise.{Keeps};

use super::Link;
use crate::limits::UNSETTLED;
use crate::session::note_accepted;
use slot_clock::clock::SlotClock;
use tick_machine::packet::Packet;
use tick_machine::refusal::Refusal;
use waiting_line::line::WaitingLine;
use waiting_line::pair::Pair;

// What is told of a packet that is accepted: its number, its stamp and its latest tick, as three numbers together, for so the rules answer an arrival.
fn told_of(packet: Packet) -> (u64, u64, u64)
    ensures { result ≡ (packet.number, packet.stamp, packet.latest) }
{
    (packet.number, packet.stamp, packet.latest)
}

impl<W: WaitingLine, S: SlotClock> Link<W, S> {
    // How many packets are unsettled: waiting, sending, left or out.
    fn unsettled(&self) -> usize
        ensures { result ≡ vec_len self.now.table + on_line self.now.line + deque_len self.now.left + vec_len self.now.out }
    {
        self.table.len() + self.sending() as usize + self.left.len() + self.out.len()
    }

    // The checks of an arrival, in their order.
    fn admit(&self, session: u64, size: u64) -> Result<(), Refusal>
        ensures value { (c : Config) (m : Machine) → Shown W.WaitingLine S.SlotClock c m self.now → result ≡ admission c session size m }
        ensures room { OnOk result (vec_len self.now.table + on_line self.now.line + deque_len self.now.left + vec_len self.now.out < 1024) }
    {
        if session >= self.sessions.len() as u64 {
            return Err(Refusal::UnknownSession);
        }
        if size == 0 {
            return Err(Refusal::Empty);
        }
        if size > self.largest {
            return Err(Refusal::TooLong);
        }
        self.waiting.room()?;
        if self.unsettled() >= UNSETTLED {
            return Err(Refusal::TooManyUnsettled);
        }
        Ok(())
    }

    // A packet of a session: its number, its stamp and its latest tick.
    pub fn arrive(&mut self, session: u64, size: u64, tag: u64) -> Result<(u64, u64, u64), Refusal>
        ensures { Keeps W.WaitingLine S.SlotClock self.old (Arrive session size tag) (told arrived result) self.new }
    {
        self.admit(session, size)?;
        let number = self.count;
        let cursor = self.slots.cursor();
        let stamp = self.slots.add(session, size)?;
        self.waiting.put(Pair {
            stamp,
            packet: number,
        })?;
        let latest = self
            .clock
            .saturating_add(stamp.saturating_sub(cursor))
            .saturating_add(self.largest);
        let packet = Packet {
            number,
            session,
            size,
            tag,
            stamp,
            latest,
        };
        self.table.push_reserved(packet);
        self.count = number.saturating_add(1);
        note_accepted(&mut self.sessions, session, size);
        Ok(told_of(packet))
    }
}
