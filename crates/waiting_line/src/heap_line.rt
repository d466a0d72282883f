// A line in a binary heap. A put and a take walk one path of the heap, O(log n). Beside the heap stand 8,191 counts: how many
// pairs have a stamp with each remainder by that prime. A stamp whose count is 0 is not in the line; only another is looked for,
// pair by pair. Its memory is reserved when it is made.
ghost use Rattle.std.specs.Prelude.{◌≡◌, ℕ, ◌<◌, ◌≤◌, false, [], ◌∷◌, ◌++◌, length, slice_index};
ghost use Rattle.std.specs.List.Sorted.{IsPermutation};
ghost use Rattle.waiting_line.specs.Lines.{holds};
ghost use Rattle.waiting_line.specs.Kept.{by_stamp, sorted, copies, sharing};
ghost use Rattle.std.proofs.Common.{rules, arith};
ghost use Rattle.waiting_line.specs.Orders.{order_rises};
ghost use Rattle.waiting_line.specs.Sums.{sorted_in_order, length_sorted};

use crate::counts::Counts;
use crate::limit::Limit;
use crate::line::WaitingLine;
use crate::pair::Pair;
use crate::refusal::MakeRefusal;
use heap_order::order::TotalOrder;
use heap_order::vec_heap::Heap;
use std::alloc::Global;
use tick_machine::refusal::LineRefusal;

// By the stamp alone, where `Ord` would have to look at the packet too.
impl TotalOrder for Pair {
    ghost before = { by_stamp };

    ghost total = { Prim.search rules };

    ghost transitive = { Prim.search rules };

    fn precedes(&self, other: &Pair) -> bool {
        self.stamp < other.stamp
    }
}

#[derive(Drop)]
pub struct HeapLine {
    heap: Heap<Pair>,
    limit: Limit,
    counts: Counts,
    ghost apart: { (s : ℕ) → copies s heap.items ≤ 1 },
    ghost counted: { (r : ℕ) → slice_index counts r ≡ sharing r heap.items },
    ghost reserved: { limit.most ≤ heap.capacity },
    ghost inside: { length heap.items ≤ limit.most },
}

impl HeapLine {
    // Whether a pair has the stamp.
    #[tactic(auto, using(crate::proofs::Sharing::sharing_none))]
    fn has(&self, stamp: u64) -> bool
        ensures { result ≡ holds stamp self.now.heap.items }
    {
        let pairs = self.heap.as_slice();
        self.counts.at(stamp) > 0 && pairs.iter().any(|pair| stamp == pair.stamp)
    }

    // Takes a pair in. There is room, and no pair has its stamp.
    #[tactic(auto, using(crate::proofs::Sharing::of_a_put))]
    fn keep(&mut self, pair: Pair)
        requires room { length self.old.heap.items < self.old.limit.most }
        requires alone { holds pair.stamp self.old.heap.items ≡ false }
        ensures shuffled { IsPermutation (self.old.heap.items ++ pair ∷ []) self.new.heap.items }
        ensures limit { self.new.limit ≡ self.old.limit }
    {
        self.counts.raise(pair.stamp);
        self.heap.push(pair);
    }
}

impl WaitingLine for HeapLine {
    ghost pairs = { λ l. sorted l.heap.items };

    ghost capacity = { λ l. l.limit.most };

    ghost rising = { λ l. order_rises (sorted l.heap.items) (sorted_in_order l.heap.items l.apart) };

    ghost within = { λ l. omega (arith, length_sorted l.heap.items) };

    ghost fits = { λ l. (l.limit.some, l.limit.few) };

    #[tactic(auto, unfolding(crate::specs::Kept::copies, crate::specs::Kept::sharing))]
    fn make(heap: Global, limit: u64) -> Result<HeapLine, MakeRefusal> {
        let limit = Limit::try_from(limit)?;
        let counts = Counts::zero(heap)?;
        let heap = Heap::with_capacity(heap, limit.places())?;
        Ok(HeapLine {
            heap,
            limit,
            counts,
        })
    }

    // (The same line in both lists: a body in the trait would need one more call, for the capacity, of every line.)
    fn room(&self) -> Result<(), LineRefusal> {
        self.limit.room(self.size())
    }

    #[tactic(auto, using(crate::proofs::Sharing::of_a_put))]
    fn put(&mut self, pair: Pair) -> Result<(), LineRefusal> {
        self.room()?;
        if self.has(pair.stamp) {
            return Err(LineRefusal::Twice);
        }
        self.keep(pair);
        Ok(())
    }

    #[tactic(auto, using(crate::proofs::Heaps::least_first))]
    fn least(&self) -> Option<Pair> {
        self.heap.first().copied()
    }

    #[tactic(auto, using(crate::proofs::Sharing::of_a_take))]
    fn take(&mut self) -> Option<Pair> {
        let pair = self.heap.take_first()?;
        self.counts.lower(pair.stamp);
        Some(pair)
    }

    #[tactic(auto, using(crate::specs::Sums::length_sorted))]
    fn size(&self) -> u64 {
        self.heap.as_slice().len() as u64
    }
}
