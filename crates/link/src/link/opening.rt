// A link that was just opened.
ghost use Rattle.std.specs.Prelude.{◌≡◌, ◌≤◌, replicate, vec_len, vec_capacity};
ghost use Rattle.link.specs.Opened.{Opened};

use super::Link;
use crate::draft::Draft;
use crate::session::Session;
use slot_clock::clock::SlotClock;
use waiting_line::line::WaitingLine;

// So many records of sessions of which nothing is known yet, in memory that was had before. (By `resize` an archive for C would need a way to have more.)
fn records(memory: Vec<Session>, many: usize) -> Vec<Session>
    requires room { many ≤ vec_capacity memory }
    requires empty { vec_len memory ≡ 0 }
    ensures { result.items ≡ replicate many (record { accepted = 0; sent = 0 }) }
{
    let mut sessions = memory;
    for _ in 0..many {
        sessions.push_reserved(Session::default());
    }
    sessions
}

impl<W: WaitingLine, S: SlotClock> Link<W, S> {
    // The link of the draft, over that slot clock, with clock 0 and no packet.
    pub(crate) fn opened(draft: Draft<W>, slots: S) -> Link<W, S>
        ensures { Opened draft slots result }
    {
        let Draft {
            waiting,
            number,
            largest,
            round: _,
            weights,
            sessions: memory,
            table,
            left,
            out,
        } = draft;
        let sessions = records(memory, weights.len());
        Link {
            waiting,
            slots,
            number,
            largest,
            sessions,
            clock: 0,
            count: 0,
            line: None,
            table,
            left,
            out,
            filed: 0,
            returned: 0,
        }
    }
}
