// A whole history.
ghost use Rattle.std.specs.Prelude.{◌≡◌, ◌++◌, string_bytes, MatchResult};
ghost use Rattle.history_reply.specs.Transcript.{printed_lines, transcript, Front};

use crate::clerk::LinkClerk;
use history_lines::lines::print_history;
use slot_clock::clock::SlotClock;
use std::alloc::{AllocError, Global};
use waiting_line::line::WaitingLine;

// Prints the transcript of the input after what is in `out`. Where there is no memory for it, some first lines of it stand there, all of them
// whole.
pub fn run<W: WaitingLine + Drop, S: SlotClock + Drop>(
    heap: Global,
    input: &[u8],
    out: &mut String,
) -> Result<(), AllocError>
    ensures { MatchResult result (λ _. string_bytes out.new ≡ string_bytes out.old ++ transcript input.now) (λ _. Front (string_bytes out.old) (printed_lines input.now) (string_bytes out.new)) }
{
    print_history(heap, LinkClerk::<W, S>::Before, input, out)
}
