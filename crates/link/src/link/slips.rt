// Slips go out and come back.
ghost use Rattle.std.specs.Prelude.{◌≡◌, ℕ, ◌+◌, ◌<◌, ◌≤◌, [], ◌∷◌, ◌++◌, drop, slice_index_or, IfOk, Ok, Err, MatchOption, MatchResult, vec_len, vec_capacity};
ghost use Rattle.std.specs.VecDeque.{deque_len, deque_capacity};
ghost use Rattle.tick_machine.specs.Machine.{Config, Machine};
ghost use Rattle.tick_machine.specs.Life.{settlement, settling, granted};
ghost use Rattle.tick_machine.specs.declared.call.Call.TheVariants.{Collect, File, Return};
ghost use Rattle.tick_machine.specs.declared.call.Answer.TheVariants.{Filed, Returned};
ghost use Rattle.link.specs.Places.{At};
ghost use Rattle.link.specs.Shown.{Shown};
ghost use Rattle.link.specs.Promise.{Keeps, collected_as, settled, HandedBack};

use super::Link;
use crate::slip::Slip;
use crate::table::place;
use slot_clock::clock::SlotClock;
use std::collections::VecDeque;
use tick_machine::call::Settlement;
use tick_machine::packet::{Departed, SlipCopy};
use tick_machine::refusal::Refusal;
use waiting_line::line::WaitingLine;

// The first packet that has left goes out: it leaves the queue, and its number is noted.
fn hand_out(left: &mut VecDeque<Departed>, out: &mut Vec<u64>) -> Option<Departed>
    requires { deque_len left.old + vec_len out.old ≤ vec_capacity out.old }
    ensures first { MatchOption result (deque_len left.old ≡ 0) (λ d. (0 < deque_len left.old) × (d ≡ slice_index_or left.old.items 0 d)) }
    ensures rest { left.new.items ≡ drop 1 left.old.items }
    ensures noted { MatchOption result (out.new.items ≡ out.old.items) (λ d. out.new.items ≡ out.old.items ++ d.packet.number ∷ []) }
    ensures many { deque_len left.new + vec_len out.new ≡ deque_len left.old + vec_len out.old }
    ensures room { (deque_capacity left.new ≡ deque_capacity left.old) × (vec_capacity out.new ≡ vec_capacity out.old) }
{
    let departed = left.pop_front()?;
    out.push_reserved(departed.packet.number);
    Some(departed)
}

impl<W: WaitingLine, S: SlotClock> Link<W, S> {
    // Hands out the first packet that has left: its slip, or none.
    pub fn collect(&mut self) -> Option<Slip>
        ensures { Keeps W.WaitingLine S.SlotClock self.old Collect (collected_as result) self.new }
    {
        let departed = hand_out(&mut self.left, &mut self.out)?;
        let packet = departed.packet;
        let says = SlipCopy {
            link: self.number,
            packet: packet.number,
            session: packet.session,
            size: packet.size,
            tag: packet.tag,
            started: departed.started,
            left: departed.left,
        };
        Some(Slip { says })
    }

    // Where the slip's packet stands among those out, or why it cannot be settled here.
    fn find_out(&self, link: u64, packet: u64) -> Result<usize, Refusal>
        ensures found { IfOk result (λ i. At (λ n. n) packet self.now.out.items i) }
        ensures value { (c : Config) (m : Machine) → Shown W.WaitingLine S.SlotClock c m self.now → MatchResult result (λ _. settlement c link packet m ≡ Ok packet) (λ e. settlement c link packet m ≡ Err e) }
    {
        if link != self.number {
            return Err(Refusal::OtherLink);
        }
        place(&self.out, packet).ok_or(Refusal::NotOut)
    }

    // The packet of the slip is settled so: its number. A refusal hands the slip back.
    pub fn settle(&mut self, slip: Slip, how: Settlement) -> Result<u64, (Refusal, Slip)>
        ensures keeps { Keeps W.WaitingLine S.SlotClock self.old (settling how slip.says.link slip.says.packet) (settled (granted how) result) self.new }
        ensures back { HandedBack slip result }
    {
        match self.find_out(slip.says.link, slip.says.packet) {
            Ok(i) => {
                let Slip { says } = slip;
                let _ = self.out.remove(i);
                match how {
                    Settlement::File => self.filed = self.filed.saturating_add(1),
                    Settlement::Return => self.returned = self.returned.saturating_add(1),
                }
                Ok(says.packet)
            }
            Err(e) => Err((e, slip)),
        }
    }

    // The packet of the slip is filed.
    pub fn file(&mut self, slip: Slip) -> Result<u64, (Refusal, Slip)>
        ensures keeps { Keeps W.WaitingLine S.SlotClock self.old (File slip.says.link slip.says.packet) (settled Filed result) self.new }
        ensures back { HandedBack slip result }
    {
        self.settle(slip, Settlement::File)
    }

    // The packet of the slip is returned.
    pub fn give_back(&mut self, slip: Slip) -> Result<u64, (Refusal, Slip)>
        ensures keeps { Keeps W.WaitingLine S.SlotClock self.old (Return slip.says.link slip.says.packet) (settled Returned result) self.new }
        ensures back { HandedBack slip result }
    {
        self.settle(slip, Settlement::Return)
    }
}
