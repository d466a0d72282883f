// A reply is printed: its word, and then its values.
ghost use Rattle.std.specs.Prelude.{◌≡◌, ◌++◌, Some, string_bytes, MatchResult};
ghost use Rattle.history_reply.specs.Replies.{answer_text, spoken, line_of};

use crate::replies::{Reply, Said};
use history_text::faults::Fault;
use std::alloc::{AllocError, Global};
use std::fmt;
use tick_machine::call::Answer;

impl fmt::Display for Said {
    ghost output = { λ s. Some (answer_text s.0) };

    fn fmt<W: fmt::Write>(&self, f: &mut fmt::Formatter<W>) -> fmt::Result {
        match self.0 {
            Answer::Made(link) => write!(f, "link {link}"),
            Answer::Added(session) => write!(f, "sess {session}"),
            Answer::Opened(round) => write!(f, "open {round}"),
            Answer::Accepted(number, stamp, latest) => write!(f, "arr {number} {stamp} {latest}"),
            Answer::Moved(clock, left) => write!(f, "at {clock} {left}"),
            Answer::Collected(None) => write!(f, "took none"),
            Answer::Collected(Some(s)) => write!(
                f,
                "took {} {} {} {} {}",
                s.packet, s.session, s.tag, s.started, s.left
            ),
            Answer::Filed(number) => write!(f, "filed {number}"),
            Answer::Returned(number) => write!(f, "back {number}"),
            Answer::FiguresAre(g) => write!(
                f,
                "figs {} {} {} {} {}",
                g.accepted, g.sent, g.served, g.lead, g.waiting
            ),
            Answer::TotalsAre(t) => write!(
                f,
                "tots {} {} {} {} {} {}",
                t.waiting, t.sending, t.left, t.out, t.filed, t.returned
            ),
            Answer::Refused(e) => {
                let number = e.number();
                match e.inside() {
                    None => write!(f, "refused {number}"),
                    Some(inner) => write!(f, "refused {number} {}", inner.number()),
                }
            }
        }
    }
}

impl fmt::Display for Reply {
    ghost output = { λ r. Some (spoken r) };

    fn fmt<W: fmt::Write>(&self, f: &mut fmt::Formatter<W>) -> fmt::Result {
        match *self {
            Reply::Fault(line, Fault { cause, byte }) => {
                write!(f, "text {} {line} {byte}", cause.number())
            }
            Reply::TooLong => write!(f, "text 60 0 0"),
            Reply::Answer(answer) => write!(f, "{}", Said(answer)),
        }
    }
}

// Writes the reply's line whole, or nothing.
pub fn put_reply(heap: Global, out: &mut String, reply: Reply) -> Result<(), AllocError>
    ensures { MatchResult result (λ _. string_bytes out.new ≡ string_bytes out.old ++ line_of reply) (λ _. string_bytes out.new ≡ string_bytes out.old) }
{
    let line = format!(in heap; "{reply}\n")?;
    out.push_str(line.as_str())
}
