// Commands at an open link.
ghost use Rattle.history_reply.specs.Stages.{Stage, obey};
ghost use Rattle.history_text.specs.declared.commands.Command.TheVariants as command;
ghost use Rattle.history.specs.Standing.{AtLink, Went};

use crate::clerk::OpenLink;
use crate::untimely::untimely;
use history_reply::replies::Reply;
use history_text::commands::Command;
use slot_clock::clock::SlotClock;
use tick_machine::call::{Answer, Settlement};
use waiting_line::line::WaitingLine;

// Each promise asks `AtLink`: a stage is no part of the clerk's value, since the trait says of any clerk at which stage it stands.
impl<W: WaitingLine, S: SlotClock> OpenLink<W, S> {
    // Hands out a slip, if none is in hand.
    fn take(self, n: u64) -> (Self, Reply)
        ensures { (s : Stage) → AtLink W.WaitingLine S.SlotClock s self → Went (AtLink W.WaitingLine S.SlotClock) (obey n s command.Take) result.0 result.1 }
    {
        let OpenLink { mut link, hand } = self;
        match hand {
            Some(slip) => (
                OpenLink {
                    link,
                    hand: Some(slip),
                },
                untimely(n),
            ),
            None => {
                let hand = link.collect();
                let answer = Answer::Collected(hand.as_ref().map(|slip| slip.copy()));
                (OpenLink { link, hand }, Reply::Answer(answer))
            }
        }
    }

    // Settles the packet of the slip in hand.
    fn settle(self, how: Settlement, n: u64) -> (Self, Reply)
        ensures { (s : Stage) → AtLink W.WaitingLine S.SlotClock s self → Went (AtLink W.WaitingLine S.SlotClock) (obey n s (command.Settle how)) result.0 result.1 }
    {
        let OpenLink { mut link, hand } = self;
        match hand {
            None => (OpenLink { link, hand: None }, untimely(n)),
            Some(slip) => match link.settle(slip, how) {
                Ok(number) => (
                    OpenLink { link, hand: None },
                    Reply::Answer(how.granted(number)),
                ),
                Err((e, kept)) => (
                    OpenLink {
                        link,
                        hand: Some(kept),
                    },
                    Reply::Answer(Answer::Refused(e)),
                ),
            },
        }
    }

    // A command at an open link. (An arm for each: what differs is the call, and not how its answer is told.)
    pub(crate) fn serve(mut self, n: u64, command: Command) -> (Self, Reply)
        ensures { (s : Stage) → AtLink W.WaitingLine S.SlotClock s self → Went (AtLink W.WaitingLine S.SlotClock) (obey n s command) result.0 result.1 }
    {
        match command {
            Command::Arrive(session, size, tag) => {
                let answer = self.link.arrive(session, size, tag).map_or_else(
                    Answer::Refused,
                    |(number, stamp, latest)| Answer::Accepted(number, stamp, latest),
                );
                (self, Reply::Answer(answer))
            }
            Command::MoveTo(tick) => {
                let answer = self
                    .link
                    .move_to(tick)
                    .map_or_else(Answer::Refused, |left| Answer::Moved(tick, left));
                (self, Reply::Answer(answer))
            }
            Command::AskFigures(session) => {
                let answer = self
                    .link
                    .figures(session)
                    .map_or_else(Answer::Refused, Answer::FiguresAre);
                (self, Reply::Answer(answer))
            }
            Command::AskTotals => {
                let answer = Answer::TotalsAre(self.link.totals());
                (self, Reply::Answer(answer))
            }
            Command::Take => self.take(n),
            Command::Settle(how) => self.settle(how, n),
            _ => (self, untimely(n)),
        }
    }
}
