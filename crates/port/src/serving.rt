// Calls that come one by one by a descriptor.
ghost use Rattle.std.specs.Prelude.{◌≡◌, ◌≤◌, vec_capacity};
ghost use Rattle.replay.specs.Hand.{Reached};

use crate::records::{AnswerRecord, CallRecord};
use crate::turns::turn;
use link::link::Link;
use link::slip::Slip;
use slot_clock::clock::SlotClock;
use waiting_line::line::WaitingLine;

// An answer could not be written whole.
#[derive(Clone, Copy, PartialEq, Eq, Debug)]
pub struct Unwritten;

// The next call, or none where the calls end.
fn read_call(requests: i32) -> Option<CallRecord> {
    let mut bytes = [0; 32];
    if io::read_full(requests, &mut bytes) < 32 {
        return None;
    }
    Some(CallRecord::from(&bytes))
}

// Writes the whole answer.
pub fn write_answer(answers: i32, said: AnswerRecord) -> Result<(), Unwritten> {
    let bytes: [u8; 72] = said.into();
    if io::write_all(answers, &bytes) {
        Ok(())
    } else {
        Err(Unwritten)
    }
}

// Answers calls until they end or an answer cannot be written.
pub fn serve<W: WaitingLine, S: SlotClock>(
    link: &mut Link<W, S>,
    slips: &mut Vec<Slip>,
    requests: i32,
    answers: i32,
) -> Result<(), Unwritten>
    requires held { Reached W.WaitingLine S.SlotClock (record { link = link.old; slips = slips.old.items }) }
    requires places { 1024 ≤ vec_capacity slips.old }
    ensures held { Reached W.WaitingLine S.SlotClock (record { link = link.new; slips = slips.new.items }) }
    ensures room { vec_capacity slips.new ≡ vec_capacity slips.old }
{
    // the calls come for as long as they come, and a loop with no bound at all would need leave to wait
    for _ in 0..u64::MAX {
        let Some(asked) = read_call(requests) else {
            break;
        };
        write_answer(answers, turn(link, slips, asked))?;
    }
    Ok(())
}
