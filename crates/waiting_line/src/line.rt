// What a waiting line means, and its calls.
ghost use Rattle.std.specs.Prelude.{◌≡◌, ℕ, ◌≤◌, true, List, [], length, if◌then◌else◌, MatchResult, OnErr};
ghost use Rattle.tick_machine.specs.Lists.{Rising};
ghost use Rattle.waiting_line.specs.declared.pair.Pair.{Pair};
ghost use Rattle.waiting_line.specs.declared.refusal.MakeRefusal.TheVariants.{Capacity, NoMemory};
ghost use Rattle.waiting_line.specs.Lines.{stamp_of, fitting, room_answer, put_answer, put_after, first, rest};

use crate::pair::Pair;
use crate::refusal::MakeRefusal;
use std::alloc::Global;
use tick_machine::refusal::LineRefusal;

// All memory that a line will need is reserved when it is made: no later call can fail for want of it.
pub trait WaitingLine: Sized {
    // The set of pairs, as the list of them in rising order of stamps: equal sets are equal lists.
    ghost pairs: { Self → List Pair };

    // How many pairs there may be. No call changes it.
    ghost capacity: { Self → ℕ };

    // An empty line with that capacity. Refused with `Capacity` exactly for 0 or more than 1,024, before memory is asked for.
    fn make(heap: Global, limit: u64) -> Result<Self, MakeRefusal>
        ensures { MatchResult result (λ l. (pairs l ≡ []) × (capacity l ≡ limit) × (fitting limit ≡ true)) (λ e. e ≡ (if fitting limit then NoMemory else Capacity)) };

    // Whether one more pair may come in. Refused with `Full` exactly if there are as many as the capacity.
    fn room(&self) -> Result<(), LineRefusal>
        ensures { result ≡ room_answer (pairs self.now) (capacity self.now) };

    // Takes a pair in. Refused with `Full` as above, else with `Twice` exactly if a pair has that stamp. A refusal changes nothing.
    fn put(&mut self, pair: Pair) -> Result<(), LineRefusal>
        ensures answer { result ≡ put_answer (pairs self.old) (capacity self.old) pair }
        ensures after { pairs self.new ≡ put_after (pairs self.old) (capacity self.old) pair }
        ensures capacity { capacity self.new ≡ capacity self.old }
        ensures refused { OnErr result (self.new ≡ self.old) };

    // The pair with the least stamp, if there is a pair.
    fn least(&self) -> Option<Pair>
        ensures { result ≡ first (pairs self.now) };

    // Takes the pair with the least stamp out, if there is a pair.
    fn take(&mut self) -> Option<Pair>
        ensures value { result ≡ first (pairs self.old) }
        ensures after { pairs self.new ≡ rest (pairs self.old) }
        ensures capacity { capacity self.new ≡ capacity self.old };

    // How many pairs there are.
    fn size(&self) -> u64
        ensures { result ≡ length (pairs self.now) };

    ghost rising: { (l : Self) → Rising stamp_of (pairs l) };

    ghost within: { (l : Self) → length (pairs l) ≤ capacity l };

    ghost fits: { (l : Self) → (1 ≤ capacity l) × (capacity l ≤ 1024) };
}
