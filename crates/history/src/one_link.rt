// The clerk of one link takes the commands of a history as the stages of the history say.
ghost use Rattle.history.specs.Standing.{Stands};

use crate::clerk::LinkClerk;
use crate::starting::{begin, draw_up};
use history_lines::clerk::Clerk;
use history_reply::replies::Reply;
use history_text::commands::{Command, Phase};
use slot_clock::clock::SlotClock;
use std::alloc::{AllocError, Global};
use waiting_line::line::WaitingLine;

impl<W: WaitingLine + Drop, S: SlotClock + Drop> Clerk for LinkClerk<W, S> {
    ghost stands = { Stands W.WaitingLine S.SlotClock };

    fn phase(&self) -> Phase {
        match self {
            LinkClerk::Before => Phase::Before,
            LinkClerk::Drafting(_) => Phase::Draft,
            LinkClerk::Serving(open) => match open.hand {
                None => Phase::Open,
                Some(_) => Phase::Holding,
            },
        }
    }

    fn obey(self, heap: Global, n: u64, command: Command) -> (Self, Result<Reply, AllocError>) {
        match self {
            LinkClerk::Before => begin(heap, n, command),
            LinkClerk::Drafting(draft) => {
                let (next, reply) = draw_up(draft, n, command);
                (next, Ok(reply))
            }
            LinkClerk::Serving(open) => {
                let (next, reply) = open.serve(n, command);
                (LinkClerk::Serving(next), Ok(reply))
            }
        }
    }

    fn close(self) -> Option<Reply> {
        match self {
            LinkClerk::Before | LinkClerk::Drafting(_) => None,
            LinkClerk::Serving(open) => open.close(),
        }
    }
}
