// A waiting line: pairs of stamp and packet number, no stamp twice, at most a capacity of them. The pair with the least stamp
// goes first. `WaitingLine` says what a line means; `HeapLine` and `SortedLine` are two ways to keep one.

#![tactic(auto)]

mod counts;
pub mod heap_line;
mod limit;
pub mod line;
pub mod pair;
pub mod refusal;
pub mod sorted_line;
