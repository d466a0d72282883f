// Where the sessions have their positions: each its own block of the round, in the order of their numbers.
// Whatever depends on these blocks stands in this file; its contracts speak of owners and of counts alone.
ghost use Rattle.std.specs.Prelude.{◌≡◌, ℕ, ◌+◌, ◌-◌, ◌*◌, ◌%◌, ◌^◌, ◌<◌, ◌≤◌, Bool, true, length, ◌&&◌, if◌then◌else◌, Some, None, Err, MatchResult, nat_le};
ghost use Rattle.tick_machine.specs.Lists.{count};
ghost use Rattle.tick_machine.specs.Slots.{round_length, holder, owner};
ghost use Rattle.slot_clock.specs.Calls.{no_zero, made_answer};
ghost use Rattle.slot_clock.specs.Layout.{Tells, counted, whole as whole_weight, part, place};
ghost use Rattle.slot_clock.specs.Walk.{below};

use crate::limits::{HEAVIEST, SESSIONS};
use crate::refusal::ClockRefusal;
use arrayvec::ArrayVec;

// The weights of at most MOST sessions, and the number of slots in a round.
#[derive(Drop)]
pub struct Layout<const MOST: usize> {
    pub weights: ArrayVec<u64, MOST>,
    pub slots: u64,
    ghost few: { length weights.items ≤ MOST },
    ghost whole: { slots ≡ round_length weights.items },
    ghost some: { 0 < slots },
}

// The number of slots in a round, if no weight is 0 and the sum is at most 4,096.
fn round_of(weights: &[u64]) -> Option<u64>
    ensures { result ≡ (if no_zero weights.now && nat_le (round_length weights.now) 4096 then Some (round_length weights.now) else None) }
{
    let mut sum = 0;
    for w in weights {
        if *w == 0 || *w > HEAVIEST - sum {
            return None;
        }
        sum += *w;
    }
    Some(sum)
}

// The session that has a position of the round.
fn holder_of(weights: &[u64], position: u64) -> usize
    requires { position < round_length weights.now }
    ensures is { result ≡ holder weights.now position }
    ensures known { result < length weights.now }
{
    let mut p = position;
    for (i, weight) in weights.iter().enumerate() {
        if p < *weight {
            return i;
        }
        p -= *weight;
    }
    unreachable!()
}

// The session that owns a slot.
pub fn owner_of(weights: &[u64], round: u64, slot: u64) -> usize
    requires whole { round ≡ round_length weights.now }
    requires some { 0 < round }
    ensures is { result ≡ owner weights.now slot }
    ensures known { result < length weights.now }
{
    holder_of(weights, slot % round)
}

// How many positions of the round count. (Here and below a clause asks that `counts` may be called at each session: a closure is of no type of
// ours that could say so, and to ask it at every number would ask more.)
fn weight_of<F: Fn(usize) -> bool>(weights: &[u64], counts: &F) -> u64
    requires fits { round_length weights.now < 2 ^ 64 }
    requires callable { (j : ℕ) → j < length weights.now → F.pre counts.now j }
    ensures is { (b : ℕ → Bool) → Tells (F.post counts.now) b → result ≡ whole_weight b 0 weights.now }
    ensures most { result ≤ round_length weights.now }
{
    let mut sum = 0;
    for (i, weight) in weights.iter().enumerate() {
        if counts(i) {
            sum += *weight;
        }
    }
    sum
}

// How many positions below this one count.
fn part_of<F: Fn(usize) -> bool>(weights: &[u64], counts: &F, position: u64) -> u64
    requires { (j : ℕ) → j < length weights.now → F.pre counts.now j }
    ensures is { (b : ℕ → Bool) → Tells (F.post counts.now) b → result ≡ part b 0 weights.now position }
    ensures most { result ≤ position }
{
    let mut sum = 0;
    let mut p = position;
    for (i, weight) in weights.iter().enumerate() {
        if counts(i) {
            sum += p.min(*weight);
        }
        p = p.saturating_sub(*weight);
    }
    sum
}

// The position that counts and has so many before it that count.
fn place_of<F: Fn(usize) -> bool>(weights: &[u64], counts: &F, before: u64) -> u64
    requires fits { round_length weights.now < 2 ^ 64 }
    requires callable { (j : ℕ) → j < length weights.now → F.pre counts.now j }
    ensures { (b : ℕ → Bool) → Tells (F.post counts.now) b → result ≡ place b 0 weights.now before }
{
    let mut start = 0;
    let mut u = before;
    for (i, weight) in weights.iter().enumerate() {
        if counts(i) {
            if u < *weight {
                return start + u;
            }
            u -= *weight;
        }
        start += *weight;
    }
    start
}

// How many slots below x count.
pub fn rank_of<F: Fn(usize) -> bool>(weights: &[u64], round: u64, counts: &F, x: u64) -> u64
    requires whole { round ≡ round_length weights.now }
    requires some { 0 < round }
    requires callable { (j : ℕ) → j < length weights.now → F.pre counts.now j }
    ensures is { (b : ℕ → Bool) → Tells (F.post counts.now) b → result ≡ count (counted weights.now b) x }
    ensures most { result ≤ x }
{
    let rest = part_of(weights, counts, x % round);
    (x / round) * weight_of(weights, counts) + rest
}

// The slot that counts and has so many between `from` and it that count.
pub fn slot_from<F: Fn(usize) -> bool>(
    weights: &[u64],
    round: u64,
    counts: &F,
    from: u64,
    between: u64,
) -> u64
    requires whole { round ≡ round_length weights.now }
    requires some { 0 < round }
    requires callable { (j : ℕ) → j < length weights.now → F.pre counts.now j }
    requires hit { (b : ℕ → Bool) × Tells (F.post counts.now) b × (0 < count (counted weights.now b) round) }
    requires near { from + (between + 1) * round < 2 ^ 63 }
    ensures counts { (b : ℕ → Bool) → Tells (F.post counts.now) b → counted weights.now b result ≡ true }
    ensures rank { (b : ℕ → Bool) → Tells (F.post counts.now) b → count (counted weights.now b) result ≡ count (counted weights.now b) from + between }
{
    let all = weight_of(weights, counts);
    let u = part_of(weights, counts, from % round) + between;
    (from / round + u / all) * round + place_of(weights, counts, u % all)
}

impl Layout<SESSIONS> {
    // The layout for these weights, or why no clock has them.
    pub fn make(weights: &[u64]) -> Result<Layout<SESSIONS>, ClockRefusal>
        ensures { MatchResult result (λ l. (l.weights.items ≡ weights.now) × (l.slots ≤ 4096) × (no_zero weights.now ≡ true)) (λ e. made_answer weights.now ≡ Err e) }
    {
        if weights.is_empty() || weights.len() > SESSIONS {
            return Err(ClockRefusal::Sessions);
        }
        let Some(slots) = round_of(weights) else {
            return Err(ClockRefusal::Weights);
        };
        Ok(Layout {
            weights: ArrayVec::try_from(weights).unwrap(),
            slots,
        })
    }
}

impl<const MOST: usize> Layout<MOST> {
    // The session that owns a slot.
    pub fn owner(&self, slot: u64) -> usize
        ensures is { result ≡ owner self.now.weights.items slot }
        ensures known { result < length self.now.weights.items }
    {
        owner_of(&self.weights, self.slots, slot)
    }

    // How many slots below x count.
    pub fn rank<F: Fn(usize) -> bool>(&self, counts: &F, x: u64) -> u64
        requires { (j : ℕ) → j < length self.now.weights.items → F.pre counts.now j }
        ensures is { (b : ℕ → Bool) → Tells (F.post counts.now) b → result ≡ count (counted self.now.weights.items b) x }
        ensures most { result ≤ x }
    {
        rank_of(&self.weights, self.slots, counts, x)
    }

    // The slot that counts and has so many between `from` and it that count.
    pub fn slot_from<F: Fn(usize) -> bool>(&self, counts: &F, from: u64, between: u64) -> u64
        requires callable { (j : ℕ) → j < length self.now.weights.items → F.pre counts.now j }
        requires hit { (b : ℕ → Bool) × Tells (F.post counts.now) b × (0 < count (counted self.now.weights.items b) self.now.slots) }
        requires near { from + (between + 1) * self.now.slots < 2 ^ 63 }
        ensures counts { (b : ℕ → Bool) → Tells (F.post counts.now) b → counted self.now.weights.items b result ≡ true }
        ensures rank { (b : ℕ → Bool) → Tells (F.post counts.now) b → count (counted self.now.weights.items b) result ≡ count (counted self.now.weights.items b) from + between }
    {
        slot_from(&self.weights, self.slots, counts, from, between)
    }

    // How many slots of a session lie below x.
    pub(crate) fn own_below(&self, session: usize, x: u64) -> u64
        ensures { result ≡ below self.now.weights.items session x }
    {
        rank_of(
            &self.weights,
            self.slots,
            &move |other: usize| other == session,
            x,
        )
    }
}
