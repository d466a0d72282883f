// Work for the two slot clocks, to be timed from outside: plain numbers in, a sum of what the clock then says out, so that
// equal sums show equal clocks. Session i has the weight i + 1; at most 64 sessions count.

#![tactic(auto)]

use jump_clock::jump::JumpClock;
use slot_clock::clock::SlotClock;
use slot_clock::step::StepClock;
use std::array;

fn weights() -> [u64; 64] {
    array::from_fn(|i| i as u64 + 1)
}

fn mixed(sum: u64, value: u64) -> u64 {
    sum.wrapping_mul(31).wrapping_add(value)
}

// V and what each session is owed.
fn shown<S: SlotClock>(clock: &S, sessions: u64) -> u64 {
    (0..sessions)
        .filter_map(|session| clock.owed(session).ok())
        .fold(clock.cursor(), mixed)
}

// Packets of the sessions in turn: the sum of their stamps.
fn load<S: SlotClock>(clock: &mut S, sessions: u64, size: u64, packets: u64) -> u64 {
    if sessions == 0 {
        return 0;
    }
    (0..packets)
        .filter_map(|packet| clock.add(packet % sessions, size).ok())
        .fold(0, mixed)
}

fn moved<S: SlotClock>(clock: &mut S, ticks: u64, moves: u64) {
    for _ in 0..moves {
        let _ = clock.run(ticks);
    }
}

// A new clock takes the packets and then moves. (Its five numbers come from C one by one.)
fn work<S: SlotClock + Drop>(
    sessions: u64,
    size: u64,
    packets: u64,
    ticks: u64,
    moves: u64,
) -> u64 {
    let count = sessions.min(64);
    let all = weights();
    let Ok(mut clock) = S::make(&all[..count as usize]) else {
        return 0;
    };
    let stamps = load(&mut clock, count, size, packets);
    moved(&mut clock, ticks, moves);
    mixed(stamps, shown(&clock, count))
}

#[unsafe(no_mangle)]
pub extern "C" fn step_clock_work(
    sessions: u64,
    size: u64,
    packets: u64,
    ticks: u64,
    moves: u64,
) -> u64 {
    work::<StepClock>(sessions, size, packets, ticks, moves)
}

#[unsafe(no_mangle)]
pub extern "C" fn jump_clock_work(
    sessions: u64,
    size: u64,
    packets: u64,
    ticks: u64,
    moves: u64,
) -> u64 {
    work::<JumpClock>(sessions, size, packets, ticks, moves)
}
