// The steps of the input on two clocks and two waiting lines.
ghost use Rattle.std.specs.Prelude.{◌≡◌};
ghost use Rattle.slot_clock.specs.Calls.{add_answer, run_answer};
ghost use Rattle.waiting_line.specs.Lines.{room_answer, put_answer};
ghost use Rattle.stamping.specs.Outcomes.{told_run, told_put, told_stamp, told_room, told_step};

use crate::both::{Agreement, Clocks, Lines};
use crate::outcome::{Done, Refused};
use crate::reading::Step;
use slot_clock::clock::SlotClock;
use waiting_line::line::WaitingLine;
use waiting_line::pair::Pair;

// Two clocks and two waiting lines, at which each step happens to both.
#[derive(Drop)]
pub struct Bench<C: SlotClock, D: SlotClock, V: WaitingLine, W: WaitingLine> {
    pub clocks: Clocks<C, D>,
    pub lines: Lines<V, W>,
    // how many sessions the clocks have
    pub sessions: u64,
    // whether both clocks and both lines said the same so far
    pub agreement: Agreement,
}

impl<C: SlotClock, D: SlotClock, V: WaitingLine, W: WaitingLine> Bench<C, D, V, W> {
    // A packet with a stamp goes into both lines.
    fn wait(&mut self, pair: Pair) -> Result<Done, Refused>
        ensures { result ≡ told_put pair.stamp (put_answer (V.WaitingLine.pairs self.old.lines.one) (V.WaitingLine.capacity self.old.lines.one) pair) }
    {
        self.agreement.hear(self.lines.put(pair))?;
        Ok(Done::Waits(pair.stamp))
    }

    // A packet of a session. Without room for it the clocks are not asked.
    fn stamp(&mut self, session: u64, size: u64, packet: u64) -> Result<Done, Refused>
        ensures { result ≡ told_room (room_answer (V.WaitingLine.pairs self.old.lines.one) (V.WaitingLine.capacity self.old.lines.one)) (told_stamp (V.WaitingLine.pairs self.old.lines.one) (V.WaitingLine.capacity self.old.lines.one) packet (add_answer (C.SlotClock.state self.old.clocks.one) session size)) }
    {
        self.agreement.hear(self.lines.room())?;
        let stamp = self.agreement.hear(self.clocks.add(session, size))?;
        self.wait(Pair { stamp, packet })
    }

    // The ticks pass for both clocks.
    fn run(&mut self, ticks: u64) -> Result<Done, Refused>
        ensures { result ≡ told_run ticks (run_answer (C.SlotClock.state self.old.clocks.one) ticks) }
    {
        self.agreement.hear(self.clocks.run(ticks))?;
        Ok(Done::Ran(ticks))
    }

    // A step on all four; a packet's number is given.
    pub fn step(&mut self, step: Step, packet: u64) -> Result<Done, Refused>
        ensures { result ≡ told_step (C.SlotClock.state self.old.clocks.one) (V.WaitingLine.pairs self.old.lines.one) (V.WaitingLine.capacity self.old.lines.one) step packet }
    {
        match step {
            Step::Packet(session, size) => self.stamp(session, size, packet),
            Step::Run(ticks) => self.run(ticks),
            Step::Put(stamp) => self.wait(Pair { stamp, packet }),
        }
    }
}
