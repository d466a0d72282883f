// Stamps packets by both slot clocks and sends them by both waiting lines. The first line of standard input that lists
// weights for a clock, with a space between, makes the clocks, session 0 having the first weight. After it each line is a step:
//   SESSION LENGTH   a packet, whose number is that of the line, is stamped and waits
//   run TICKS        so many ticks pass
//   put STAMP        a packet whose stamp is given by hand waits
// After each step V and the bytes owed to each session are told, at the end the packets in the order of sending, and whether
// both clocks and both lines always said the same. A line that is none of these is told, and the rest goes on.

#![tactic(auto)]

mod both;
mod outcome;
mod playing;
mod reading;
mod telling;

use crate::reading::input_lines;
use crate::telling::session;
use jump_clock::jump::JumpClock;
use slot_clock::step::StepClock;
use waiting_line::heap_line::HeapLine;
use waiting_line::sorted_line::SortedLine;

fn run(rt: &HostRuntime) -> anyhow::Result<()> {
    let texts = input_lines(rt)?;
    if session::<StepClock, JumpClock, HeapLine, SortedLine>(rt, texts.as_slice())? {
        println!(rt; "the clocks and the lines agreed throughout")?;
    } else {
        println!(rt; "the clocks or the lines differed")?;
    }
    Ok(())
}

fn main(rt: HostRuntime) -> anyhow::Result<()> {
    run(&rt)
}
