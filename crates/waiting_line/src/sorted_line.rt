// A line in a vector, by rising stamps. A put finds its place by halving, O(log n) comparisons, and moves what stands after it
// as one block; a take moves the others down as one block. Its memory is reserved when it is made.
ghost use Rattle.std.specs.Prelude.{◌≡◌, ◌≤◌, true, false, vec_len, vec_capacity, MatchResult};
ghost use Rattle.std.specs.List.{insert};
ghost use Rattle.tick_machine.specs.Lists.{insert as insertion};
ghost use Rattle.tick_machine.specs.declared.refusal.LineRefusal.TheVariants.{Twice};
ghost use Rattle.waiting_line.specs.Lines.{stamp_of, holds};
ghost use Rattle.waiting_line.specs.Kept.{in_order};
ghost use Rattle.waiting_line.specs.Orders.{order_rises};
ghost use Rattle.std.proofs.Common.{rules, arith};

use crate::limit::Limit;
use crate::line::WaitingLine;
use crate::pair::Pair;
use crate::refusal::MakeRefusal;
use std::alloc::Global;
use tick_machine::refusal::LineRefusal;

#[derive(Drop)]
pub struct SortedLine {
    items: Vec<Pair>,
    limit: Limit,
    ghost rising: { in_order items.items ≡ true },
    ghost reserved: { limit.most ≤ vec_capacity items },
    ghost inside: { vec_len items ≤ limit.most },
}

impl SortedLine {
    // Where a pair goes, unless its stamp is there already.
    fn place(&self, pair: Pair) -> Result<usize, LineRefusal>
        ensures { MatchResult result (λ i. (i ≤ vec_len self.now.items) × (holds pair.stamp self.now.items.items ≡ false) × (insert self.now.items.items i pair ≡ insertion stamp_of pair self.now.items.items)) (λ e. (e ≡ Twice) × (holds pair.stamp self.now.items.items ≡ true)) }
    {
        match self
            .items
            .binary_search_by_key(&pair.stamp, |other| other.stamp)
        {
            Ok(_) => Err(LineRefusal::Twice),
            Err(at) => Ok(at),
        }
    }
}

impl WaitingLine for SortedLine {
    ghost pairs = { λ l. l.items.items };

    ghost capacity = { λ l. l.limit.most };

    ghost rising = { λ l. order_rises l.items.items l.rising };

    ghost within = { λ l. omega (arith, l.items.ok) };

    ghost fits = { λ l. (l.limit.some, l.limit.few) };

    fn make(heap: Global, limit: u64) -> Result<SortedLine, MakeRefusal> {
        let limit = Limit::try_from(limit)?;
        let items = Vec::with_capacity(heap, limit.places())?;
        Ok(SortedLine { items, limit })
    }

    // (The same line in both lists: a body in the trait would need one more call, for the capacity, of every line.)
    fn room(&self) -> Result<(), LineRefusal> {
        self.limit.room(self.size())
    }

    #[tactic(auto, using(crate::specs::Orders::put_kept))]
    fn put(&mut self, pair: Pair) -> Result<(), LineRefusal> {
        self.room()?;
        let at = self.place(pair)?;
        self.items.insert(at, pair).unwrap();
        Ok(())
    }

    fn least(&self) -> Option<Pair> {
        self.items.first().copied()
    }

    // (A test first, since a vector has no method that takes the first of perhaps none.)
    fn take(&mut self) -> Option<Pair> {
        if self.items.is_empty() {
            return None;
        }
        Some(self.items.remove(0))
    }

    fn size(&self) -> u64 {
        self.items.len() as u64
    }
}
