// Figures and totals: readings, which change nothing.
ghost use Rattle.std.specs.Prelude.{◌≡◌, ℕ, ◌+◌, ◌-◌, ◌^◌, ◌<◌, ◌≤◌, min, pos, ◌-ℤ◌, ◌==◌};
ghost use Rattle.tick_machine.specs.Lists.{total, only};
ghost use Rattle.tick_machine.specs.Life.{told, on_line};
ghost use Rattle.tick_machine.specs.declared.call.Call.TheVariants.{AskFigures, AskTotals};
ghost use Rattle.tick_machine.specs.declared.call.Answer.TheVariants.{FiguresAre, TotalsAre};
ghost use Rattle.link.specs.Promise.{Keeps, LeadBounded};

use super::Link;
use slot_clock::clock::SlotClock;
use tick_machine::call::{Figures, Totals};
use tick_machine::packet::Packet;
use tick_machine::refusal::Refusal;
use waiting_line::line::WaitingLine;

// The bytes of the session's packets in the table.
fn bytes_of(table: &[Packet], session: u64) -> u64
    ensures { result ≡ min (total (λ p. only (p.session == session) p.size) table.now) 18446744073709551615 }
{
    let mut sum: u64 = 0;
    for packet in table {
        if packet.session == session {
            sum = sum.saturating_add(packet.size);
        }
    }
    sum
}

// Sent minus served.
fn lead_of(sent: u64, served: u64) -> i64
    ensures { sent < 2 ^ 63 → served < 2 ^ 63 → result ≡ pos sent -ℤ pos served }
{
    let most = i64::MAX as u64;
    sent.min(most) as i64 - served.min(most) as i64
}

impl<W: WaitingLine, S: SlotClock> Link<W, S> {
    // The link's number, which its slips say.
    pub fn number(&self) -> u64
        ensures { result ≡ self.now.number }
    {
        self.number
    }

    // How many packets are on the line.
    pub(super) fn sending(&self) -> u64
        ensures { result ≡ on_line self.now.line }
    {
        match self.line {
            None => 0,
            Some(_) => 1,
        }
    }

    // The figures of a session.
    pub fn figures(&self, session: u64) -> Result<Figures, Refusal>
        ensures keeps { Keeps W.WaitingLine S.SlotClock self.now (AskFigures session) (told FiguresAre result) self.now }
        ensures lead { LeadBounded W.WaitingLine S.SlotClock self.now result }
    {
        if session >= self.sessions.len() as u64 {
            return Err(Refusal::UnknownSession);
        }
        let record = self.sessions[session as usize];
        let owed = self.slots.owed(session)?;
        let served = record.accepted.saturating_sub(owed);
        let lead = lead_of(record.sent, served);
        let waiting = bytes_of(&self.table, session);
        Ok(Figures {
            accepted: record.accepted,
            sent: record.sent,
            served,
            lead,
            waiting,
        })
    }

    // The packets of the link, by where they are.
    pub fn totals(&self) -> Totals
        ensures { Keeps W.WaitingLine S.SlotClock self.now AskTotals (TotalsAre result) self.now }
    {
        Totals {
            waiting: self.waiting.size(),
            sending: self.sending(),
            left: self.left.len() as u64,
            out: self.out.len() as u64,
            filed: self.filed,
            returned: self.returned,
        }
    }
}
