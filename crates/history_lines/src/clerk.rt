// A clerk takes the commands of a history, one after another.
ghost use Rattle.std.specs.Prelude.{◌≡◌};
ghost use Rattle.history_reply.specs.Stages.{Stage, phase_of, obey};
ghost use Rattle.history_reply.specs.Transcript.{ending};
ghost use Rattle.history_lines.specs.Clerks.{Obeyed, last_lines};

use history_reply::replies::Reply;
use history_text::commands::{Command, Phase};
use std::alloc::{AllocError, Global};

pub trait Clerk: Sized {
    // The stage of the history at which the clerk stands.
    ghost stands: { Stage → Self → Type 0 };

    // Which words are in turn.
    fn phase(&self) -> Phase
        ensures { (s : Stage) → stands s self.now → result ≡ phase_of s };

    // Obeys the command of line n. Where there is no memory for it, the clerk stands where it stood.
    fn obey(self, heap: Global, n: u64, command: Command) -> (Self, Result<Reply, AllocError>)
        ensures { (s : Stage) → stands s self → Obeyed stands s (obey n s command) result.0 result.1 };

    // The history ends here: a slip in hand is returned, and that is replied.
    fn close(self) -> Option<Reply>
        requires { (s : Stage) × stands s self }
        ensures { (s : Stage) → stands s self → last_lines result ≡ ending s };
}
