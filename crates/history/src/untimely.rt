// A word out of turn.
ghost use Rattle.std.specs.Prelude.{◌≡◌};

use history_reply::replies::Reply;
use history_text::faults::{Cause, Fault};

pub fn untimely(n: u64) -> Reply
    ensures { result ≡ Reply.Fault n (record { cause = Cause.Untimely; byte = 1 }) }
{
    let fault = Fault {
        cause: Cause::Untimely,
        byte: 1,
    };
    Reply::Fault(n, fault)
}
