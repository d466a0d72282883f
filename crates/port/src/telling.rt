// Answers to C. Their kinds are numbers, since C has no enums that hold numbers.
ghost use Rattle.std.specs.Prelude.{◌≡◌, pos};
ghost use Rattle.port.specs.Records.{no_call, no_memory, record_of, refusal_record, slip_record};

use crate::records::AnswerRecord;
use tick_machine::call::Answer;
use tick_machine::packet::SlipCopy;
use tick_machine::refusal::Refusal;

impl AnswerRecord {
    // A record with no lead.
    fn plain(kind: u64, values: [u64; 7]) -> AnswerRecord
        ensures { result ≡ record { kind = kind; lead = pos 0; values = values } }
    {
        AnswerRecord {
            kind,
            lead: 0,
            values,
        }
    }

    // No call has the kind that was asked for: nothing was done.
    pub fn unknown() -> AnswerRecord
        ensures { result ≡ no_call }
    {
        AnswerRecord::plain(0, [0; 7])
    }

    // There is no memory for a link.
    pub fn no_memory() -> AnswerRecord
        ensures { result ≡ no_memory }
    {
        AnswerRecord::plain(11, [0; 7])
    }
}

impl From<Refusal> for AnswerRecord {
    ghost from_gives = { λ e r. r ≡ refusal_record e };

    fn from(e: Refusal) -> AnswerRecord {
        let below = match e.inside() {
            Some(line) => line.number(),
            None => 0,
        };
        AnswerRecord::plain(9, [e.number(), below, 0, 0, 0, 0, 0])
    }
}

impl From<SlipCopy> for AnswerRecord {
    ghost from_gives = { λ s r. r ≡ slip_record s };

    fn from(s: SlipCopy) -> AnswerRecord {
        let values = [
            s.link, s.packet, s.session, s.size, s.tag, s.started, s.left,
        ];
        AnswerRecord::plain(3, values)
    }
}

impl From<Answer> for AnswerRecord {
    ghost from_gives = { λ a r. r ≡ record_of a };

    fn from(answer: Answer) -> AnswerRecord {
        let (kind, values) = match answer {
            Answer::Accepted(number, stamp, latest) => (1, [number, stamp, latest, 0, 0, 0, 0]),
            Answer::Moved(clock, left) => (2, [clock, left, 0, 0, 0, 0, 0]),
            Answer::Collected(Some(slip)) => return slip.into(),
            Answer::Collected(None) => (8, [0; 7]),
            Answer::Filed(number) => (4, [number, 0, 0, 0, 0, 0, 0]),
            Answer::Returned(number) => (5, [number, 0, 0, 0, 0, 0, 0]),
            Answer::FiguresAre(f) => {
                return AnswerRecord {
                    kind: 6,
                    lead: f.lead,
                    values: [f.accepted, f.sent, f.served, f.waiting, 0, 0, 0],
                };
            }
            Answer::TotalsAre(t) => (
                7,
                [t.waiting, t.sending, t.left, t.out, t.filed, t.returned, 0],
            ),
            Answer::Opened(round) => (10, [round, 0, 0, 0, 0, 0, 0]),
            Answer::Made(number) => (12, [number, 0, 0, 0, 0, 0, 0]),
            Answer::Added(session) => (13, [session, 0, 0, 0, 0, 0, 0]),
            Answer::Refused(e) => return e.into(),
        };
        AnswerRecord::plain(kind, values)
    }
}
