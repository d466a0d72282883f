// The end of a history.
ghost use Rattle.std.specs.Prelude.{◌≡◌};
ghost use Rattle.history_reply.specs.Stages.{Stage};
ghost use Rattle.history_reply.specs.Transcript.{ending};
ghost use Rattle.history_lines.specs.Clerks.{last_lines};
ghost use Rattle.history.specs.Standing.{AtLink};

use crate::clerk::OpenLink;
use history_reply::replies::Reply;
use slot_clock::clock::SlotClock;
use tick_machine::call::Answer;
use waiting_line::line::WaitingLine;

// The promise asks `AtLink`: a stage is no part of the clerk's value, since the trait says of any clerk at which stage it stands.
impl<W: WaitingLine + Drop, S: SlotClock + Drop> OpenLink<W, S> {
    // The slip in hand is returned. It is out, so its return is granted.
    pub(crate) fn close(self) -> Option<Reply>
        requires { (s : Stage) × AtLink W.WaitingLine S.SlotClock s self }
        ensures { (s : Stage) → AtLink W.WaitingLine S.SlotClock s self → last_lines result ≡ ending s }
    {
        let OpenLink { mut link, hand } = self;
        match hand {
            None => None,
            Some(slip) => match link.give_back(slip) {
                Ok(number) => Some(Reply::Answer(Answer::Returned(number))),
                Err(_refused) => unreachable!(),
            },
        }
    }
}
