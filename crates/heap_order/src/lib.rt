// Binary heaps over any total order. The heap lies in a slice: the element at place k > 0 has its parent at (k - 1) / 2,
// and no element is before its parent, so the first is the least. A sift walks one path of that tree, O(log n) steps. `Heap`
// keeps one in memory that is reserved once.

#![tactic(auto)]

pub mod order;
pub mod sift;
pub mod vec_heap;
