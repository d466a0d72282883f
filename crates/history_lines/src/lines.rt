// The lines of an input are answered. Where memory fails, the answers to some first lines stand there, whole.
ghost use Rattle.std.specs.Prelude.{◌≡◌, ◌++◌, string_bytes, MatchResult};
ghost use Rattle.history_reply.specs.Stages.{Stage, before};
ghost use Rattle.history_reply.specs.Transcript.{printed_lines, transcript, Front};
ghost use Rattle.history_lines.specs.Clerks.{Answered};

use crate::clerk::Clerk;
use history_reply::printing::put_reply;
use history_reply::replies::Reply;
use history_text::cuts::Parts;
use history_text::reading::read;
use std::alloc::{AllocError, Global};

// No more bytes are answered.
pub const LONGEST: usize = 65536;

// The answer to line n.
fn answer_line<C: Clerk>(
    heap: Global,
    clerk: C,
    n: u64,
    line: &[u8],
    out: &mut String,
) -> (C, Result<(), AllocError>)
    ensures { (s : Stage) → C.Clerk.stands s clerk → Answered C.Clerk.stands n s line.now (string_bytes out.old) (string_bytes out.new) result.0 result.1 }
{
    if line.is_empty() {
        return (clerk, Ok(()));
    }
    match read(clerk.phase(), line) {
        Err(fault) => (clerk, put_reply(heap, out, Reply::Fault(n, fault))),
        Ok(command) => {
            let (next, answer) = clerk.obey(heap, n, command);

            // By `and_then`, the proof would not see what the closure leaves in `out`.
            match answer {
                Ok(reply) => (next, put_reply(heap, out, reply)),
                Err(e) => (next, Err(e)),
            }
        }
    }
}

// Answers the input from its first line on. The clerk stands before an accepted link.
pub fn print_history<C: Clerk>(
    heap: Global,
    start: C,
    input: &[u8],
    out: &mut String,
) -> Result<(), AllocError>
    requires { C.Clerk.stands before start }
    ensures { MatchResult result (λ _. string_bytes out.new ≡ string_bytes out.old ++ transcript input.now) (λ _. Front (string_bytes out.old) (printed_lines input.now) (string_bytes out.new)) }
{
    if input.len() > LONGEST {
        let _ = start.close();
        return put_reply(heap, out, Reply::TooLong);
    }
    let mut clerk = start;
    for (line, n) in Parts::of(input, b'\n').zip(1..) {
        let (next, done) = answer_line(heap, clerk, n, line, out);
        clerk = next;
        if let Err(e) = done {
            let _ = clerk.close();
            return Err(e);
        }
    }
    match clerk.close() {
        None => Ok(()),
        Some(reply) => put_reply(heap, out, reply),
    }
}
