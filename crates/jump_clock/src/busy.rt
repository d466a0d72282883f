// The heap of busy sessions.
ghost use Rattle.std.specs.Prelude.{◌≡◌, ℕ, ◌+◌, ◌<◌, ◌≤◌, [], length, MatchOption, ◌≢◌, slice_index_or};
ghost use Rattle.std.specs.List.Sorted.{IsPermutation};
ghost use Rattle.heap_order.specs.Heaps.{Loose, Heavy};
ghost use Rattle.jump_clock.specs.Ends.{by_end, blank, Ordered};
ghost use Rattle.std.proofs.Common.{rules};

use crate::dry::{Busy, Dry};
use arrayvec::ArrayVec;
use heap_order::order::TotalOrder;
use heap_order::sift::{sift_down, sift_up};

// By hand: a derived order would break ties of the end by the session, so that "not before" would say more than the heap keeps.
impl TotalOrder for Dry {
    ghost before = { by_end };

    ghost total = { Prim.search rules };

    ghost transitive = { Prim.search rules };

    fn precedes(&self, other: &Dry) -> bool {
        self.end < other.end
    }
}

// Lets the one at a place rise to where it belongs.
fn raise(places: &mut ArrayVec<Dry, 64>, at: usize)
    requires within { at < length places.old.items }
    requires loose { Loose by_end places.old.items at }
    ensures shuffled { IsPermutation places.old.items places.new.items }
    ensures ordered { Ordered places.new.items }
    ensures len { length places.new.items ≡ length places.old.items }
{
    sift_up(places.as_mut_slice(), at);
}

// Lets the one at a place sink to where it belongs.
fn lower(places: &mut ArrayVec<Dry, 64>, at: usize)
    requires { Heavy by_end places.old.items at }
    ensures shuffled { IsPermutation places.old.items places.new.items }
    ensures ordered { Ordered places.new.items }
    ensures len { length places.new.items ≡ length places.old.items }
{
    sift_down(places.as_mut_slice(), at);
}

// Where a session stands among these.
pub fn find(places: &[Dry], session: usize) -> Option<usize>
    ensures { MatchOption result ((k : ℕ) → k < length places.now → (slice_index_or places.now k blank).session ≢ session) (λ i. (i < length places.now) × ((slice_index_or places.now i blank).session ≡ session)) }
{
    places.iter().position(|dry| dry.session == session)
}

impl Busy {
    ghost use Rattle.jump_clock.specs.Dries.{items, Traded, Gained, Lost};

    pub fn empty() -> Busy
        ensures { items result ≡ [] }
    {
        Busy {
            places: ArrayVec::new(),
        }
    }

    // The session that runs dry first, if one is busy.
    pub fn first(&self) -> Option<Dry>
        ensures { MatchOption result (items self.now ≡ []) (λ x. (0 < length (items self.now)) × (x ≡ slice_index_or (items self.now) 0 blank)) }
    {
        self.places.first().copied()
    }

    // The first leaves. (Its caller has just read that there is one, so an Option would be tested twice.)
    pub fn drop_first(&mut self)
        requires { 0 < length (items self.old) }
        ensures lost { Lost (items self.old) (slice_index_or (items self.old) 0 blank) (items self.new) }
        ensures count { length (items self.new) + 1 ≡ length (items self.old) }
    {
        self.places.swap_remove(0);
        lower(&mut self.places, 0);
    }

    // One more comes.
    pub fn enter(&mut self, x: Dry)
        requires { length (items self.old) < 64 }
        ensures { Gained (items self.old) x (items self.new) }
    {
        let at = self.places.len();
        self.places.push(x);
        raise(&mut self.places, at);
    }

    // The one at a place runs dry later.
    pub fn renew(&mut self, at: usize, x: Dry)
        requires within { at < length (items self.old) }
        requires later { (slice_index_or (items self.old) at blank).end ≤ x.end }
        ensures { Traded (items self.old) (slice_index_or (items self.old) at blank) x (items self.new) }
    {
        self.places[at] = x;
        lower(&mut self.places, at);
    }

    // Where a session stands.
    pub fn find(&self, session: usize) -> Option<usize>
        ensures { MatchOption result ((k : ℕ) → k < length (items self.now) → (slice_index_or (items self.now) k blank).session ≢ session) (λ i. (i < length (items self.now)) × ((slice_index_or (items self.now) i blank).session ≡ session)) }
    {
        find(&self.places, session)
    }
}
