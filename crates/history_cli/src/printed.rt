// A history is printed by a link of the chosen parts.
ghost use Rattle.std.specs.Prelude.{◌≡◌, ◌++◌, string_bytes, MatchResult};
ghost use Rattle.history_reply.specs.Transcript.{printed_lines, transcript, Front};

use crate::parts::Parts;
use history::run::run;
use jump_clock::jump::JumpClock;
use slot_clock::step::StepClock;
use std::alloc::{AllocError, Global};
use waiting_line::heap_line::HeapLine;
use waiting_line::sorted_line::SortedLine;

// Whatever the parts are, the same is printed. (The parts are types, and no value or closure stands for a type.)
pub fn run_with(
    parts: Parts,
    heap: Global,
    input: &[u8],
    out: &mut String,
) -> Result<(), AllocError>
    ensures { MatchResult result (λ _. string_bytes out.new ≡ string_bytes out.old ++ transcript input.now) (λ _. Front (string_bytes out.old) (printed_lines input.now) (string_bytes out.new)) }
{
    match parts {
        Parts::HeapStep => run::<HeapLine, StepClock>(heap, input, out),
        Parts::HeapJump => run::<HeapLine, JumpClock>(heap, input, out),
        Parts::SortedStep => run::<SortedLine, StepClock>(heap, input, out),
        Parts::SortedJump => run::<SortedLine, JumpClock>(heap, input, out),
    }
}
