// A heap in memory that is reserved when it is made: nothing after that allocates. The free functions serve a `Vec` that lies as
// a heap and has another owner; `Heap` owns its own, and always is one.
ghost use Rattle.std.specs.Prelude.{◌≡◌, ◌+◌, ◌-◌, ◌<◌, false, [], ◌∷◌, ◌++◌, length, option_copied, slice_get, slice_index_or, slice_set, vec_len, vec_capacity, IfOk, MatchOption};
ghost use Rattle.std.specs.List.Sorted.{IsPermutation};
ghost use Rattle.heap_order.specs.Heaps.{Heaped, FirstLeast, Heavy};

use crate::order::TotalOrder;
use crate::sift::{sift_down, sift_up};
use std::alloc::{AllocError, Global};
use std::marker::Model;

// Lets the element at `at` sink to its place, after it was put there in place of one that is not after it.
pub fn lower<T: TotalOrder>(v: &mut Vec<T>, at: usize)
    requires heavy { Heavy T.before v.old.items at }
    ensures shuffled { IsPermutation v.old.items v.new.items }
    ensures heaped { Heaped T.before v.new.items }
    ensures len { vec_len v.new ≡ vec_len v.old }
    ensures capacity { vec_capacity v.new ≡ vec_capacity v.old }
{
    sift_down(v, at);
}

// Adds an element. The reserved room has a place for it.
pub fn push<T: TotalOrder>(v: &mut Vec<T>, x: T)
    requires room { vec_len v.old < vec_capacity v.old }
    requires heaped { Heaped T.before v.old.items }
    ensures shuffled { IsPermutation (v.old.items ++ x ∷ []) v.new.items }
    ensures heaped { Heaped T.before v.new.items }
    ensures len { vec_len v.new ≡ vec_len v.old + 1 }
    ensures capacity { vec_capacity v.new ≡ vec_capacity v.old }
{
    let at = v.len();
    v.push_reserved(x);
    sift_up(v, at);
}

// Takes the first, which is the least.
#[tactic(auto, using(crate::proofs::Changes::taken))]
pub fn take_first<T: TotalOrder>(v: &mut Vec<T>) -> T
    requires some { 0 < vec_len v.old }
    requires heaped { Heaped T.before v.old.items }
    ensures value { result ≡ slice_index_or v.old.items 0 result }
    ensures shuffled { IsPermutation v.old.items (result ∷ v.new.items) }
    ensures heaped { Heaped T.before v.new.items }
    ensures len { vec_len v.new + 1 ≡ vec_len v.old }
    ensures capacity { vec_capacity v.new ≡ vec_capacity v.old }
{
    let first = v.swap_remove(0);
    lower(v, 0);
    first
}

// Puts x in place of the element at `at`, which x is not before.
pub fn replace<T: TotalOrder + Drop>(v: &mut Vec<T>, at: usize, x: T)
    requires within { at < vec_len v.old }
    requires heaped { Heaped T.before v.old.items }
    requires later { (d : T) → T.before x (slice_index_or v.old.items at d) ≡ false }
    ensures shuffled { IsPermutation (slice_set v.old.items at x) v.new.items }
    ensures heaped { Heaped T.before v.new.items }
    ensures len { vec_len v.new ≡ vec_len v.old }
    ensures capacity { vec_capacity v.new ≡ vec_capacity v.old }
{
    v[at] = x;
    lower(v, at);
}

// A contract sees the elements as they lie, and for how many there is memory.
#[derive(Drop)]
pub struct Heap<T: TotalOrder> {
    items: Vec<T>,
}

impl<T: TotalOrder> Model for Heap<T> {
    ghost use Rattle.std.specs.Prelude.{vec_capacity};
    ghost use Rattle.heap_order.specs.Heaps.{Held, Heaped};

    ghost Value = { Held T };

    ghost view = { λ h. record { items = h.items.items; capacity = vec_capacity h.items } };

    ghost invariant = { λ h. Heaped T.before h.items.items };
}

impl<T: TotalOrder> Heap<T> {
    // An empty heap with memory for so many elements.
    pub fn with_capacity(alloc: Global, capacity: usize) -> Result<Heap<T>, AllocError>
        ensures empty { IfOk result (λ h. h.items ≡ []) }
        ensures capacity { IfOk result (λ h. h.capacity ≡ capacity) }
    {
        let items = Vec::with_capacity(alloc, capacity)?;
        Ok(Heap { items })
    }

    // The heap of these elements, which lie as one.
    pub fn new(items: Vec<T>) -> Heap<T>
        requires { Heaped T.before items.items }
        ensures value { result.items ≡ items.items }
        ensures capacity { result.capacity ≡ vec_capacity items }
    {
        Heap { items }
    }

    // The elements as they lie.
    pub fn into_vec(self) -> Vec<T>
        ensures value { result.items ≡ self.items }
        ensures capacity { vec_capacity result ≡ self.capacity }
        ensures heaped { Heaped T.before result.items }
    {
        let Heap { items } = self;
        items
    }

    pub fn as_slice(&self) -> &[T]
        ensures value { result.now ≡ self.now.items }
        ensures len { length result.now ≡ length self.now.items }
        ensures heaped { Heaped T.before result.now }
    {
        &self.items
    }

    // The first, which is the least.
    pub fn first(&self) -> Option<&T>
        ensures value { option_copied result ≡ slice_get self.now.items 0 }
        ensures least { FirstLeast T.before self.now.items }
    {
        self.items.first()
    }

    // Adds an element. There is memory for it.
    pub fn push(&mut self, x: T)
        requires room { length self.old.items < self.old.capacity }
        ensures shuffled { IsPermutation (self.old.items ++ x ∷ []) self.new.items }
        ensures len { length self.new.items ≡ length self.old.items + 1 }
        ensures capacity { self.new.capacity ≡ self.old.capacity }
    {
        push(&mut self.items, x);
    }

    // Takes the first, which is the least, if there is one. (A test first, since the free function needs one.)
    pub fn take_first(&mut self) -> Option<T>
        ensures value { result ≡ slice_get self.old.items 0 }
        ensures least { FirstLeast T.before self.old.items }
        ensures shuffled { MatchOption result (self.new ≡ self.old) (λ x. IsPermutation self.old.items (x ∷ self.new.items)) }
        ensures len { length self.new.items ≡ length self.old.items - 1 }
        ensures capacity { self.new.capacity ≡ self.old.capacity }
    {
        if self.items.is_empty() {
            return None;
        }
        Some(take_first(&mut self.items))
    }
}

impl<T: TotalOrder + Drop> Heap<T> {
    // Puts x in place of the element at `at`, which x is not before.
    pub fn replace(&mut self, at: usize, x: T)
        requires within { at < length self.old.items }
        requires later { (d : T) → T.before x (slice_index_or self.old.items at d) ≡ false }
        ensures shuffled { IsPermutation (slice_set self.old.items at x) self.new.items }
        ensures len { length self.new.items ≡ length self.old.items }
        ensures capacity { self.new.capacity ≡ self.old.capacity }
    {
        replace(&mut self.items, at, x);
    }
}
