// Two clocks, or two waiting lines, side by side, to which the same calls are made: they stand for the same, and answer the
// same.
ghost use Rattle.std.specs.Prelude.{◌≡◌, true, [], length, if◌then◌else◌, Ok, Err, MatchResult};
ghost use Rattle.std.specs.Coded.{Coded-set};
ghost use Rattle.std.proofs.Props.{props};
ghost use Rattle.slot_clock.specs.Calls.{made_answer, add_answer, add_after, run_answer, run_after, owed_answer};
ghost use Rattle.waiting_line.specs.declared.refusal.MakeRefusal.TheVariants.{Capacity, NoMemory};
ghost use Rattle.waiting_line.specs.Lines.{fitting, room_answer, put_answer, put_after, first, rest};
ghost use Rattle.stamping.specs.Alike.{SameClocks, SameLines};

use slot_clock::clock::SlotClock;
use slot_clock::refusal::ClockRefusal;
use std::alloc::Global;
use tick_machine::refusal::LineRefusal;
use waiting_line::line::WaitingLine;
use waiting_line::pair::Pair;
use waiting_line::refusal::MakeRefusal;

// What the one and the other answered, which is the same.
#[derive(Drop)]
pub struct Both<T> {
    pub one: T,
    pub other: T,
    pub ghost same: { other ≡ one } by { Coded-set T.code other one },
}

// Two clocks for the same weights.
#[derive(Drop)]
pub struct Clocks<C: SlotClock, D: SlotClock> {
    pub one: C,
    pub other: D,
    pub ghost alike: { SameClocks C.state D.state one other } by { Prim.hlevel props },
}

impl<C: SlotClock + Drop, D: SlotClock + Drop> Clocks<C, D> {
    // With nothing owed, or the refusal.
    pub fn make(weights: &[u64]) -> Result<Self, ClockRefusal>
        ensures { MatchResult result (λ p. made_answer weights.now ≡ Ok (C.SlotClock.state p.one)) (λ e. made_answer weights.now ≡ Err e) }
    {
        let one = C::make(weights)?;
        let other = D::make(weights)?;
        Ok(Clocks { one, other })
    }
}

impl<C: SlotClock, D: SlotClock> Clocks<C, D> {
    // A packet of a session: its stamp by both.
    pub fn add(&mut self, session: u64, size: u64) -> Both<Result<u64, ClockRefusal>>
        ensures answer { result.one ≡ add_answer (C.SlotClock.state self.old.one) session size }
        ensures after { C.SlotClock.state self.new.one ≡ add_after (C.SlotClock.state self.old.one) session size }
    {
        let one = self.one.add(session, size);
        let other = self.other.add(session, size);
        Both { one, other }
    }

    // So many ticks pass for both.
    pub fn run(&mut self, ticks: u64) -> Both<Result<(), ClockRefusal>>
        ensures answer { result.one ≡ run_answer (C.SlotClock.state self.old.one) ticks }
        ensures after { C.SlotClock.state self.new.one ≡ run_after (C.SlotClock.state self.old.one) ticks }
    {
        let one = self.one.run(ticks);
        let other = self.other.run(ticks);
        Both { one, other }
    }

    // The bytes that both owe a session.
    pub fn owed(&self, session: u64) -> Both<Result<u64, ClockRefusal>>
        ensures { result.one ≡ owed_answer (C.SlotClock.state self.now.one) session }
    {
        let one = self.one.owed(session);
        let other = self.other.owed(session);
        Both { one, other }
    }

    // V of both.
    pub fn cursor(&self) -> Both<u64>
        ensures { result.one ≡ (C.SlotClock.state self.now.one).cursor }
    {
        let one = self.one.cursor();
        let other = self.other.cursor();
        Both { one, other }
    }
}

// Two lines with the same pairs and the same capacity.
#[derive(Drop)]
pub struct Lines<V: WaitingLine, W: WaitingLine> {
    pub one: V,
    pub other: W,
    pub ghost alike: { SameLines V.pairs V.capacity W.pairs W.capacity one other } by { Prim.hlevel props },
}

impl<V: WaitingLine + Drop, W: WaitingLine + Drop> Lines<V, W> {
    // Empty, with that capacity, or the refusal.
    pub fn make(heap: Global, capacity: u64) -> Result<Self, MakeRefusal>
        ensures { MatchResult result (λ p. (fitting capacity ≡ true) × (V.WaitingLine.pairs p.one ≡ []) × (V.WaitingLine.capacity p.one ≡ capacity)) (λ e. e ≡ (if fitting capacity then NoMemory else Capacity)) }
    {
        let one = V::make(heap, capacity)?;
        let other = W::make(heap, capacity)?;
        Ok(Lines { one, other })
    }
}

impl<V: WaitingLine, W: WaitingLine> Lines<V, W> {
    // Whether both have room.
    pub fn room(&self) -> Both<Result<(), LineRefusal>>
        ensures { result.one ≡ room_answer (V.WaitingLine.pairs self.now.one) (V.WaitingLine.capacity self.now.one) }
    {
        let one = self.one.room();
        let other = self.other.room();
        Both { one, other }
    }

    // A pair comes into both.
    pub fn put(&mut self, pair: Pair) -> Both<Result<(), LineRefusal>>
        ensures answer { result.one ≡ put_answer (V.WaitingLine.pairs self.old.one) (V.WaitingLine.capacity self.old.one) pair }
        ensures after { V.WaitingLine.pairs self.new.one ≡ put_after (V.WaitingLine.pairs self.old.one) (V.WaitingLine.capacity self.old.one) pair }
        ensures capacity { V.WaitingLine.capacity self.new.one ≡ V.WaitingLine.capacity self.old.one }
    {
        let one = self.one.put(pair);
        let other = self.other.put(pair);
        Both { one, other }
    }

    // The pair with the least stamp leaves both.
    pub fn take(&mut self) -> Both<Option<Pair>>
        ensures answer { result.one ≡ first (V.WaitingLine.pairs self.old.one) }
        ensures after { V.WaitingLine.pairs self.new.one ≡ rest (V.WaitingLine.pairs self.old.one) }
        ensures capacity { V.WaitingLine.capacity self.new.one ≡ V.WaitingLine.capacity self.old.one }
    {
        let one = self.one.take();
        let other = self.other.take();
        Both { one, other }
    }

    // How many pairs wait in both.
    pub fn size(&self) -> u64
        ensures { result ≡ length (V.WaitingLine.pairs self.now.one) }
    {
        self.one.size()
    }
}

// Whether two parts have answered the same so far, as they always have.
#[derive(Clone, Copy)]
pub struct Agreement {
    holds: bool,
    pub ghost throughout: { holds ≡ true },
}

impl Agreement {
    // Nothing is heard yet.
    pub fn new() -> Self {
        Agreement { holds: true }
    }

    // What both answered. `==` is asked whether it finds the two equal, as it always does.
    pub fn hear<T: Eq + Drop>(&mut self, said: Both<T>) -> T
        ensures { result ≡ said.one }
    {
        self.holds = self.holds && said.one == said.other;
        said.one
    }

    pub fn holds(&self) -> bool
        ensures { result ≡ true }
    {
        self.holds
    }
}
