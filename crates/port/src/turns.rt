// Records as calls of an open link, one after the other.
ghost use Rattle.std.specs.Prelude.{◌≡◌, ◌≤◌, min, [], length, vec_capacity};
ghost use Rattle.tick_machine.specs.Machine.{Config};
ghost use Rattle.replay.specs.Hand.{Held, Reached};
ghost use Rattle.port.specs.Turns.{Turns, TurnedAll};

use crate::records::{AnswerRecord, CallRecord};
use link::link::Link;
use link::slip::Slip;
use replay::desk::answer;
use slot_clock::clock::SlotClock;
use tick_machine::call::Call;
use waiting_line::line::WaitingLine;

// One record. What is no call changes nothing.
pub fn turn<W: WaitingLine, S: SlotClock>(
    link: &mut Link<W, S>,
    slips: &mut Vec<Slip>,
    asked: CallRecord,
) -> AnswerRecord
    requires held { Reached W.WaitingLine S.SlotClock (record { link = link.old; slips = slips.old.items }) }
    requires places { 1024 ≤ vec_capacity slips.old }
    ensures turns { Turns W.WaitingLine S.SlotClock (record { link = link.old; slips = slips.old.items }) asked result (record { link = link.new; slips = slips.new.items }) }
    ensures room { vec_capacity slips.new ≡ vec_capacity slips.old }
{
    match Call::try_from(asked) {
        Ok(call) => answer(link, slips, call).into(),
        Err(_unknown) => AnswerRecord::unknown(),
    }
}

// How many records are turned: as many as there are, and places for their answers.
fn many(calls: &[CallRecord], answers: &[AnswerRecord]) -> usize
    ensures { result ≡ min (length calls.now) (length answers.now) }
{
    calls.len().min(answers.len())
}

// Every record, in order, for as many as there are places for answers. They are told of a link just opened.
pub fn turn_all<W: WaitingLine, S: SlotClock>(
    link: &mut Link<W, S>,
    slips: &mut Vec<Slip>,
    calls: &[CallRecord],
    answers: &mut [AnswerRecord],
)
    requires held { Reached W.WaitingLine S.SlotClock (record { link = link.old; slips = slips.old.items }) }
    requires places { 1024 ≤ vec_capacity slips.old }
    ensures turned { (c : Config) → Held W.WaitingLine S.SlotClock c [] (record { link = link.old; slips = slips.old.items }) → TurnedAll W.WaitingLine S.SlotClock c (min (length calls.now) (length answers.old)) calls.now answers.old answers.new (record { link = link.new; slips = slips.new.items }) }
    ensures held { Reached W.WaitingLine S.SlotClock (record { link = link.new; slips = slips.new.items }) }
    ensures room { vec_capacity slips.new ≡ vec_capacity slips.old }
{
    let count = many(calls, answers);
    // the places are named by their index, since nothing is known of what a `zip` over `iter_mut` has written
    for (i, asked) in calls[..count].iter().enumerate() {
        answers[i] = turn(link, slips, *asked);
    }
}
