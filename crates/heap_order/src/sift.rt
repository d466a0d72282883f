// Sifting: a slice that is a heap but for one place becomes a heap again by exchanges alone.
// (Two loops with a condition: the place goes along a path of the tree, which no iterator of the library walks.)
ghost use Rattle.std.specs.Prelude.{◌≡◌, ◌+◌, ◌*◌, ◌<◌, length, slice_index_or};
ghost use Rattle.std.specs.List.Sorted.{IsPermutation};
ghost use Rattle.heap_order.specs.Heaps.{Heaped, Loose, Heavy, LeastChild, parent};

use crate::order::TotalOrder;

// Moves the element at `at` up while it is before its parent.
pub fn sift_up<T: TotalOrder>(s: &mut [T], at: usize)
    requires within { at < length s.old }
    requires loose { Loose T.before s.old at }
    ensures shuffled { IsPermutation s.old s.new }
    ensures heaped { Heaped T.before s.new }
{
    let mut i = at;
    while i > 0 {
        let up = (i - 1) / 2;
        if !s[i].precedes(&s[up]) {
            return;
        }
        s.swap(up, i);
        i = up;
    }
}

// The place of a child of the element at `at` that no other child is before. It has one or two.
fn least_child<T: TotalOrder>(s: &[T], at: usize) -> usize
    requires { at * 2 + 1 < length s.now }
    ensures child { (0 < result) × (result < length s.now) × (parent result ≡ at) }
    ensures least { LeastChild T.before s.now at result }
{
    let left = at * 2 + 1;
    if left + 1 < s.len() && s[left + 1].precedes(&s[left]) {
        left + 1
    } else {
        left
    }
}

// Moves the element at `at` down while a child is before it.
pub fn sift_down<T: TotalOrder>(s: &mut [T], at: usize)
    requires heavy { Heavy T.before s.old at }
    ensures shuffled { IsPermutation s.old s.new }
    ensures heaped { Heaped T.before s.new }
{
    let mut i = at;
    while i < s.len() / 2 {
        let child = least_child(s, i);
        if !s[child].precedes(&s[i]) {
            return;
        }
        s.swap(i, child);
        i = child;
    }
}
