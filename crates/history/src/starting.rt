// Commands before an accepted link, and at a draft.
ghost use Rattle.tick_machine.specs.Machine.{Config};
ghost use Rattle.link.specs.Drafting.{Drafts};
ghost use Rattle.history_reply.specs.Stages.{before, draft as at_draft_of, obey};
ghost use Rattle.history_lines.specs.Clerks.{Obeyed};
ghost use Rattle.history.specs.Standing.{Stands, Went};

use crate::clerk::{LinkClerk, OpenLink};
use crate::untimely::untimely;
use history_reply::replies::Reply;
use history_text::commands::Command;
use link::draft::Draft;
use link::error::MakeError;
use slot_clock::clock::SlotClock;
use std::alloc::{AllocError, Global};
use tick_machine::call::Answer;
use waiting_line::line::WaitingLine;

// Only a link can be made.
pub fn begin<W: WaitingLine + Drop, S: SlotClock>(
    heap: Global,
    n: u64,
    command: Command,
) -> (LinkClerk<W, S>, Result<Reply, AllocError>)
    ensures { Obeyed (Stands W.WaitingLine S.SlotClock) before (obey n before command) result.0 result.1 }
{
    let Command::Make(making) = command else {
        return (LinkClerk::Before, Ok(untimely(n)));
    };
    match Draft::<W>::make(heap, making) {
        Ok(made) => (
            LinkClerk::Drafting(made),
            Ok(Reply::Answer(Answer::Made(making.number))),
        ),
        Err(MakeError::Refused(e)) => (LinkClerk::Before, Ok(Reply::Answer(Answer::Refused(e)))),
        Err(MakeError::NoMemory(e)) => (LinkClerk::Before, Err(e)),
    }
}

// Sessions are added to a draft, or it is opened.
pub fn draw_up<W: WaitingLine, S: SlotClock>(
    mut draft: Draft<W>,
    n: u64,
    command: Command,
) -> (LinkClerk<W, S>, Reply)
    ensures { (c : Config) → Drafts W.WaitingLine c draft → Went (Stands W.WaitingLine S.SlotClock) (obey n (at_draft_of c) command) result.0 result.1 }
{
    match command {
        Command::Add(weight) => {
            let answer = draft
                .add(weight)
                .map_or_else(Answer::Refused, Answer::Added);
            (LinkClerk::Drafting(draft), Reply::Answer(answer))
        }
        Command::Open => {
            let (link, round) = draft.open();
            let open = OpenLink { link, hand: None };
            (
                LinkClerk::Serving(open),
                Reply::Answer(Answer::Opened(round)),
            )
        }
        _ => (LinkClerk::Drafting(draft), untimely(n)),
    }
}
