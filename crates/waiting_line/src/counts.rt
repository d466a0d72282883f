// For each remainder of a stamp by a prime, how many pairs have it.
ghost use Rattle.std.specs.Prelude.{◌≡◌, ℕ, ◌+◌, ◌<◌, ◌≤◌, ◌≢◌, slice_index, IfOk};
ghost use Rattle.waiting_line.specs.Kept.{remainder};

use std::alloc::{AllocError, Global};
use std::marker::Model;

// A prime, so that stamps at equal distances spread over the counts.
const REMAINDERS: usize = 8191;

// A contract sees the counts by remainder.
#[derive(Drop)]
pub struct Counts {
    counts: Vec<u16>,
}

impl Model for Counts {
    ghost use Rattle.std.specs.Prelude.{◌≡◌, ℕ, List, vec_len};

    ghost Value = { List ℕ };

    ghost view = { λ c. c.counts.items };

    ghost invariant = { λ c. vec_len c.counts ≡ 8191 };
}

// The remainder by which a stamp is counted.
fn place(stamp: u64) -> usize
    ensures value { result ≡ remainder stamp }
    ensures within { result < 8191 }
{
    stamp as usize % REMAINDERS
}

impl Counts {
    // Each count is 0.
    pub fn zero(heap: Global) -> Result<Counts, AllocError>
        ensures { IfOk result (λ c. (r : ℕ) → slice_index c r ≡ 0) }
    {
        let counts = vec![in heap; 0; REMAINDERS]?;
        Ok(Counts { counts })
    }

    // The count for a stamp's remainder.
    pub fn at(&self, stamp: u64) -> u16
        ensures { result ≡ slice_index self.now (remainder stamp) }
    {
        self.counts[place(stamp)]
    }

    // One more pair has a stamp.
    pub fn raise(&mut self, stamp: u64)
        requires { slice_index self.old (remainder stamp) < 65535 }
        ensures one { slice_index self.new (remainder stamp) ≡ slice_index self.old (remainder stamp) + 1 }
        ensures others { (r : ℕ) → r ≢ remainder stamp → slice_index self.new r ≡ slice_index self.old r }
    {
        self.counts[place(stamp)] += 1;
    }

    // One pair fewer has a stamp.
    pub fn lower(&mut self, stamp: u64)
        requires { 1 ≤ slice_index self.old (remainder stamp) }
        ensures one { slice_index self.new (remainder stamp) + 1 ≡ slice_index self.old (remainder stamp) }
        ensures others { (r : ℕ) → r ≢ remainder stamp → slice_index self.new r ≡ slice_index self.old r }
    {
        self.counts[place(stamp)] -= 1;
    }
}
