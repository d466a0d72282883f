// A morning on one line: an importer with long messages and a large weight beside forwarders with short entries and small ones. It is played over
// each pair of a waiting line and a slot clock; what the first pair answered is printed, and then whether the other three answered the same.

#![tactic(auto)]

mod table;
mod words;

use crate::table::{MORNING, OPENING, OTHER_WEIGHTS};
use crate::words::Words;
use jump_clock::jump::JumpClock;
use link_play::play::answers_of;
use slot_clock::clock::SlotClock;
use slot_clock::step::StepClock;
use std::alloc::{AllocError, Global};
use std::io;
use tick_machine::call::Answer;
use waiting_line::heap_line::HeapLine;
use waiting_line::line::WaitingLine;
use waiting_line::sorted_line::SortedLine;

fn played<W: WaitingLine + Drop, S: SlotClock + Drop>(
    heap: Global,
) -> Result<Vec<Answer>, AllocError> {
    answers_of::<W, S>(heap, OPENING, &OTHER_WEIGHTS, &MORNING)
}

// The opening's answers, and then each step with its own.
fn show(rt: &HostRuntime, answers: &[Answer]) -> io::Result<()> {
    let before = answers.len().saturating_sub(MORNING.len());
    let (opening, morning) = answers.split_at(before);
    for answer in opening {
        println!(rt; "{}", Words(*answer))?;
    }
    for (step, answer) in MORNING.iter().zip(morning) {
        println!(rt; "{}: {}", Words(*step), Words(*answer))?;
    }
    Ok(())
}

// Whether a pair of parts answers as the first did.
fn compare<W: WaitingLine + Drop, S: SlotClock + Drop>(
    rt: &HostRuntime,
    name: &str,
    first: &[Answer],
) -> anyhow::Result<bool> {
    let answers = played::<W, S>(rt.alloc())?;
    let same = answers.as_slice() == first;
    println!(rt;
        "{name}: {} answers",
        if same { "the same" } else { "other" }
    )?;
    Ok(same)
}

fn run(rt: &HostRuntime) -> anyhow::Result<()> {
    let answers = played::<HeapLine, StepClock>(rt.alloc())?;
    let first = answers.as_slice();
    println!(rt; "heap line and slot by slot clock:")?;
    show(rt, first)?;
    let same = [
        compare::<HeapLine, JumpClock>(rt, "heap line and jumping clock", first)?,
        compare::<SortedLine, StepClock>(rt, "sorted line and slot by slot clock", first)?,
        compare::<SortedLine, JumpClock>(rt, "sorted line and jumping clock", first)?,
    ];
    let agree = same.iter().all(|same| *same);
    println!(rt; "the four {}", if agree { "agree" } else { "differ" })?;
    Ok(())
}

fn main(rt: HostRuntime) -> anyhow::Result<()> {
    run(&rt)
}
