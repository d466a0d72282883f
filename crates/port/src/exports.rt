// What C sees: a link over the heap and the jumping clock, for a whole history in one call or for as long as calls come.
ghost use Rattle.std.specs.Prelude.{◌≡◌, drop};
ghost use Rattle.tick_machine.specs.Machine.{Config};
ghost use Rattle.tick_machine.specs.Life.{made};
ghost use Rattle.link.specs.Drafting.{Drafts};
ghost use Rattle.port.specs.Preparing.{first_weight};
ghost use Rattle.port.specs.Playing.{Plays, Reports, number_of};

use crate::preparing::prepare;
use crate::records::{AnswerRecord, CallRecord};
use crate::serving::{Unwritten, serve, write_answer};
use crate::turns::turn_all;
use jump_clock::jump::JumpClock;
use link::draft::Draft;
use link::error::MakeError;
use replay::desk::Desk;
use slot_clock::clock::SlotClock;
use std::alloc::{AllocError, Global};
use tick_machine::call::Answer;
use waiting_line::heap_line::HeapLine;
use waiting_line::line::WaitingLine;

// What C is told for want of memory. No refusal has this number.
const NO_MEMORY: u64 = 1;

// Opens the draft, plays the calls, and returns the slips that are left over.
fn play<W: WaitingLine + Drop, S: SlotClock + Drop>(
    heap: Global,
    draft: Draft<W>,
    calls: &[CallRecord],
    answers: &mut [AnswerRecord],
) -> Result<(), AllocError>
    requires { (c : Config) × Drafts W.WaitingLine c draft }
    ensures { (c : Config) → Drafts W.WaitingLine c draft → Plays c calls.now answers.old answers.new result }
{
    let (desk, _) = Desk::<W, S>::open(heap, draft)?;
    let (mut link, mut slips) = desk.into_parts();
    turn_all(&mut link, &mut slips, calls, answers);
    Desk::new(link, slips).close();
    Ok(())
}

// A whole history, from the making on.
fn prepare_and_play<W: WaitingLine + Drop, S: SlotClock + Drop>(
    heap: Global,
    number: u64,
    largest: u64,
    capacity: u64,
    weights: &[u64],
    calls: &[CallRecord],
    answers: &mut [AnswerRecord],
) -> Result<(), MakeError>
    ensures { Reports (made number largest capacity (first_weight weights.now)) (drop 1 weights.now) calls.now answers.old answers.new (number_of result) }
{
    let draft = prepare(heap, number, largest, capacity, weights)?;
    play::<W, S>(heap, draft, calls, answers)?;
    Ok(())
}

// The open link of what is made and added, and the number of slots in its round.
fn prepare_and_open<W: WaitingLine + Drop, S: SlotClock + Drop>(
    heap: Global,
    number: u64,
    largest: u64,
    capacity: u64,
    weights: &[u64],
) -> Result<(Desk<W, S>, u64), MakeError> {
    let draft = prepare(heap, number, largest, capacity, weights)?;
    let opened = Desk::<W, S>::open(heap, draft)?;
    Ok(opened)
}

// Says that the link is open, answers calls for as long as they come, and returns the slips that are left over.
fn serve_opened<W: WaitingLine + Drop, S: SlotClock + Drop>(
    desk: Desk<W, S>,
    round: u64,
    requests: i32,
    answers: i32,
) -> Result<(), Unwritten> {
    let heard = write_answer(answers, Answer::Opened(round).into());
    let (mut link, mut slips) = desk.into_parts();
    let _ = serve(&mut link, &mut slips, requests, answers);
    Desk::new(link, slips).close();
    heard
}

// It answers a number, as C can read it: 0 where the history was played, and else the refusal's number, or that for want of memory.
#[unsafe(no_mangle)]
pub extern "C" fn fudlexo_play(
    heap: Global,
    number: u64,
    largest: u64,
    capacity: u64,
    weights: &[u64],
    calls: &[CallRecord],
    answers: &mut [AnswerRecord],
) -> u64
    ensures { Reports (made number largest capacity (first_weight weights.now)) (drop 1 weights.now) calls.now answers.old answers.new result }
{
    let played = prepare_and_play::<HeapLine, JumpClock>(
        heap, number, largest, capacity, weights, calls, answers,
    );
    match played {
        Ok(()) => 0,
        Err(MakeError::Refused(e)) => e.number(),
        Err(MakeError::NoMemory(_)) => NO_MEMORY,
    }
}

// Its first answer says that the link is open, or why it is not. It is 0 if that answer could be written, and else 1: numbers, as C can read them.
#[unsafe(no_mangle)]
pub extern "C" fn fudlexo_serve(
    heap: Global,
    requests: i32,
    answers: i32,
    number: u64,
    largest: u64,
    capacity: u64,
    weights: &[u64],
) -> u64 {
    let opened = prepare_and_open::<HeapLine, JumpClock>(heap, number, largest, capacity, weights);
    let heard = match opened {
        Ok((desk, round)) => serve_opened(desk, round, requests, answers),
        Err(MakeError::Refused(e)) => write_answer(answers, e.into()),
        Err(MakeError::NoMemory(_)) => write_answer(answers, AnswerRecord::no_memory()),
    };
    match heard {
        Ok(()) => 0,
        Err(Unwritten) => 1,
    }
}
