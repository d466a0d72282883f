// Steps and answers in words.
use crate::table::NAMES;
use link_play::step::Step;
use std::fmt;
use tick_machine::call::{Answer, Figures, Totals};
use tick_machine::packet::SlipCopy;
use tick_machine::refusal::Refusal;

// A step, an answer or a part of one, to be printed in words.
#[derive(Clone, Copy)]
pub struct Words<T>(pub T);

fn name(session: u64) -> &'static str {
    NAMES.get(session as usize).copied().unwrap_or("nobody")
}

impl fmt::Display for Words<Step> {
    fn fmt<W: fmt::Write>(&self, f: &mut fmt::Formatter<W>) -> fmt::Result {
        match self.0 {
            Step::Arrive(session, size, tag) => write!(
                f,
                "{} brings {size} bytes, tag {tag}",
                name(session)
            ),
            Step::MoveTo(tick) => write!(f, "the clock goes to {tick}"),
            Step::TakeAndFile => write!(f, "a slip is taken to be filed"),
            Step::TakeAndReturn => write!(f, "a slip is taken to be returned"),
            Step::AskFigures(session) => write!(f, "figures of {}", name(session)),
            Step::AskTotals => write!(f, "totals"),
        }
    }
}

impl fmt::Display for Words<SlipCopy> {
    fn fmt<W: fmt::Write>(&self, f: &mut fmt::Formatter<W>) -> fmt::Result {
        let slip = self.0;
        write!(
            f,
            "packet {} of {}, {} bytes, tag {}, sent from {} to {}",
            slip.packet,
            name(slip.session),
            slip.size,
            slip.tag,
            slip.started,
            slip.left
        )
    }
}

impl fmt::Display for Words<Figures> {
    fn fmt<W: fmt::Write>(&self, f: &mut fmt::Formatter<W>) -> fmt::Result {
        let Figures {
            accepted,
            sent,
            served,
            lead,
            waiting,
        } = self.0;
        write!(
            f,
            "accepted {accepted}, sent {sent}, served {served}, lead {lead}, waiting {waiting}"
        )
    }
}

impl fmt::Display for Words<Totals> {
    fn fmt<W: fmt::Write>(&self, f: &mut fmt::Formatter<W>) -> fmt::Result {
        let Totals {
            waiting,
            sending,
            left,
            out,
            filed,
            returned,
        } = self.0;
        write!(
            f,
            "waiting {waiting}, sending {sending}, left {left}, out {out}, filed {filed}, returned {returned}"
        )
    }
}

impl fmt::Display for Words<Refusal> {
    fn fmt<W: fmt::Write>(&self, f: &mut fmt::Formatter<W>) -> fmt::Result {
        write!(f, "refused {}", self.0.number())?;
        match self.0.inside() {
            Some(below) => write!(f, " {}", below.number()),
            None => Ok(()),
        }
    }
}

impl fmt::Display for Words<Answer> {
    fn fmt<W: fmt::Write>(&self, f: &mut fmt::Formatter<W>) -> fmt::Result {
        match self.0 {
            Answer::Made(number) => write!(f, "link {number} is drafted"),
            Answer::Added(session) => write!(f, "{} is session {session}", name(session)),
            Answer::Opened(round) => write!(f, "open, {round} slots in a round"),
            Answer::Accepted(number, stamp, latest) => write!(
                f,
                "packet {number}, stamp {stamp}, latest tick {latest}"
            ),
            Answer::Moved(_, left) => write!(f, "{left} left"),
            Answer::Collected(None) => write!(f, "none"),
            Answer::Collected(Some(slip)) => write!(f, "{}", Words(slip)),
            Answer::Filed(number) => write!(f, "packet {number} is filed"),
            Answer::Returned(number) => write!(f, "packet {number} is returned"),
            Answer::FiguresAre(figures) => write!(f, "{}", Words(figures)),
            Answer::TotalsAre(totals) => write!(f, "{}", Words(totals)),
            Answer::Refused(refusal) => write!(f, "{}", Words(refusal)),
        }
    }
}
