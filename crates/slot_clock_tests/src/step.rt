// A call of a slot clock with what it is answered, for any slot clock.
use slot_clock::clock::SlotClock;
use slot_clock::refusal::ClockRefusal;
use std::process::Abort;
use std::test::Fail;

#[derive(Clone, Copy)]
pub enum Step {
    // session, size, stamp
    Add(u64, u64, Result<u64, ClockRefusal>),
    Run(u64, Result<(), ClockRefusal>),
    Cursor(u64),
    // session, bytes
    Owed(u64, Result<u64, ClockRefusal>),
}

// Plays the step with this place in its table.
fn play<C: SlotClock>(rt: &impl Abort, clock: &mut C, at: usize, step: Step) {
    match step {
        Step::Add(session, size, stamp) => {
            assert_eq!(rt; clock.add(session, size), stamp, "at {at}");
        }
        Step::Run(ticks, done) => assert_eq!(rt; clock.run(ticks), done, "at {at}"),
        Step::Cursor(v) => assert_eq!(rt; clock.cursor(), v, "at {at}"),
        Step::Owed(session, bytes) => assert_eq!(rt; clock.owed(session), bytes, "at {at}"),
    }
}

// Plays the steps in order.
fn plays<C: SlotClock>(rt: &impl Abort, clock: &mut C, steps: &[Step]) {
    for (at, step) in steps.iter().enumerate() {
        play(rt, clock, at, *step);
    }
}

// Plays a table on a clock that was just made.
pub fn follow<C: SlotClock + Drop>(
    rt: &impl Abort,
    weights: &[u64],
    steps: &[Step],
) -> Result<(), Fail> {
    let mut clock = C::make(weights)?;
    plays(rt, &mut clock, steps);
    Ok(())
}

// Why no clock was made, if none was.
pub fn refused<C: SlotClock + Drop>(weights: &[u64]) -> Option<ClockRefusal> {
    C::make(weights).err()
}

// So many packets of the greatest size.
fn load<C: SlotClock>(clock: &mut C, packets: u64) -> Result<(), Fail> {
    for _ in 0..packets {
        let _stamp = clock.add(0, 65535)?;
    }
    Ok(())
}

// Up to the greatest number of bytes owed, and one past it.
pub fn filled<C: SlotClock + Drop>(rt: &impl Abort) -> Result<(), Fail> {
    let mut clock = C::make(&[1])?;
    load(&mut clock, 1024)?;
    let steps = [
        Step::Owed(0, Ok(67107840)),
        Step::Add(0, 1, Err(ClockRefusal::TooMuchOwed)),
        Step::Run(2, Ok(())),
        Step::Add(0, 3, Err(ClockRefusal::TooMuchOwed)),
        Step::Add(0, 2, Ok(67107841)),
    ];
    plays(rt, &mut clock, &steps);
    Ok(())
}

// A small generator of numbers.
#[derive(Drop)]
struct Dice {
    state: u64,
}

impl Dice {
    fn roll(&mut self, faces: u64) -> u64 {
        self.state = self
            .state
            .wrapping_mul(6364136223846793005)
            .wrapping_add(1442695040888963407);
        if faces == 0 {
            0
        } else {
            (self.state >> 33) % faces
        }
    }
}

// A call whose answers are compared.
#[derive(Clone, Copy)]
enum Call {
    // session, size
    Add(u64, u64),
    Run(u64),
    Owed(u64),
}

fn drawn(dice: &mut Dice) -> Call {
    match dice.roll(8) {
        0 | 1 | 2 => Call::Add(dice.roll(6), dice.roll(60)),
        3 => Call::Add(dice.roll(70), dice.roll(700)),
        4 | 5 => Call::Run(dice.roll(50)),
        6 => Call::Run(dice.roll(3000)),
        _ => Call::Owed(dice.roll(66)),
    }
}

// Both clocks answer the call alike.
fn alike<A: SlotClock, B: SlotClock>(rt: &impl Abort, a: &mut A, b: &mut B, call: Call) {
    match call {
        Call::Add(session, size) => assert_eq!(rt; a.add(session, size), b.add(session, size)),
        Call::Run(ticks) => assert_eq!(rt; a.run(ticks), b.run(ticks)),
        Call::Owed(session) => assert_eq!(rt; a.owed(session), b.owed(session)),
    }
}

fn same_owed<A: SlotClock, B: SlotClock>(rt: &impl Abort, a: &A, b: &B, sessions: u64) {
    for session in 0..sessions {
        assert_eq!(rt; a.owed(session), b.owed(session), "of session {session}");
    }
}

// Two clocks side by side on drawn calls.
pub fn compared<A: SlotClock + Drop, B: SlotClock + Drop>(
    rt: &impl Abort,
    weights: &[u64],
    seed: u64,
    calls: u64,
) -> Result<(), Fail> {
    let mut a = A::make(weights)?;
    let mut b = B::make(weights)?;
    let mut dice = Dice { state: seed };
    for _ in 0..calls {
        let call = drawn(&mut dice);
        alike(rt, &mut a, &mut b, call);
        assert_eq!(rt; a.cursor(), b.cursor());
        same_owed(rt, &a, &b, 6);
    }
    Ok(())
}
