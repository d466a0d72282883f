// The slot clock: what every one of them does to its state.
ghost use Rattle.std.specs.Prelude.{◌≡◌, ℕ, ◌^◌, ◌≤◌, length, OnErr, slice_index};
ghost use Rattle.slot_clock.specs.State.{SlotState, state_of, round_of};
ghost use Rattle.slot_clock.specs.Calls.{made_answer, made_state, add_answer, add_after, run_answer, run_after, owed_answer};

use crate::refusal::ClockRefusal;

pub trait SlotClock: Sized {
    ghost state: { Self → SlotState };

    // A clock for these weights, with nothing owed.
    fn make(weights: &[u64]) -> Result<Self, ClockRefusal>
        ensures { made_state state result ≡ made_answer weights.now };

    // A packet of so many bytes of a session is accepted: its stamp.
    fn add(&mut self, session: u64, size: u64) -> Result<u64, ClockRefusal>
        ensures answer { result ≡ add_answer (state self.old) session size }
        ensures after { state self.new ≡ add_after (state self.old) session size }
        ensures refused { OnErr result (self.new ≡ self.old) };

    // So many ticks pass.
    fn run(&mut self, ticks: u64) -> Result<(), ClockRefusal>
        ensures answer { result ≡ run_answer (state self.old) ticks }
        ensures after { state self.new ≡ run_after (state self.old) ticks }
        ensures refused { OnErr result (self.new ≡ self.old) };

    // V.
    fn cursor(&self) -> u64
        ensures { result ≡ (state self.now).cursor };

    // How many bytes a session is owed.
    fn owed(&self, session: u64) -> Result<u64, ClockRefusal>
        ensures { result ≡ owed_answer (state self.now) session };

    // What is owed is what the round server owes.
    ghost served: { (c : Self) → state_of (state c).weights (state c).ticks (round_of (state c)) ≡ state c };

    ghost sized: { (c : Self) → length (state c).next ≡ length (state c).weights };

    // The numbers stay small, so that sums with them fit a word.
    ghost early: { (c : Self) → (state c).cursor ≤ 2 ^ 56 };

    ghost near: { (c : Self) (i : ℕ) → slice_index (state c).next i ≤ 2 ^ 57 };
}
