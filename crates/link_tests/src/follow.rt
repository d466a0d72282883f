// Plays a table over all four pairs of parts, and compares the answers.
use jump_clock::jump::JumpClock;
use link_play::play::answers_of;
use link_play::step::Step;
use slot_clock::clock::SlotClock;
use slot_clock::step::StepClock;
use std::process::Abort;
use std::test::Fail;
use tick_machine::call::{Answer, Figures, Making, Totals};
use tick_machine::packet::SlipCopy;
use waiting_line::heap_line::HeapLine;
use waiting_line::line::WaitingLine;
use waiting_line::sorted_line::SortedLine;

// The tables write slips, figures and totals as rows of numbers, in the order of the fields: with the names of the fields a table of thirty
// rows would be some two hundred lines.
pub fn slip(
    link: u64,
    packet: u64,
    session: u64,
    size: u64,
    tag: u64,
    started: u64,
    left: u64,
) -> Answer {
    Answer::Collected(Some(SlipCopy {
        link,
        packet,
        session,
        size,
        tag,
        started,
        left,
    }))
}

pub fn figures(accepted: u64, sent: u64, served: u64, lead: i64, waiting: u64) -> Answer {
    Answer::FiguresAre(Figures {
        accepted,
        sent,
        served,
        lead,
        waiting,
    })
}

pub fn totals(
    waiting: u64,
    sending: u64,
    left: u64,
    out: u64,
    filed: u64,
    returned: u64,
) -> Answer {
    Answer::TotalsAre(Totals {
        waiting,
        sending,
        left,
        out,
        filed,
        returned,
    })
}

// What is tried over each pair of a waiting line and a slot clock.
pub trait Tried {
    fn over<W: WaitingLine + Drop, S: SlotClock + Drop>(
        &self,
        rt: &(impl Abort + AllocGlobal),
        pair: &str,
    ) -> Result<(), Fail>;

    fn on_all_four(&self, rt: &(impl Abort + AllocGlobal)) -> Result<(), Fail> {
        self.over::<HeapLine, StepClock>(rt, "heap, step")?;
        self.over::<HeapLine, JumpClock>(rt, "heap, jump")?;
        self.over::<SortedLine, StepClock>(rt, "sorted, step")?;
        self.over::<SortedLine, JumpClock>(rt, "sorted, jump")
    }
}

// A making and its addings, and what they and the opening are answered.
#[derive(Clone, Copy)]
pub struct Drafted<'a> {
    pub making: Making,
    pub weights: &'a [u64],
    pub expected: &'a [Answer],
}

impl Tried for Drafted<'_> {
    fn over<W: WaitingLine + Drop, S: SlotClock + Drop>(
        &self,
        rt: &(impl Abort + AllocGlobal),
        pair: &str,
    ) -> Result<(), Fail> {
        let answers = answers_of::<W, S>(rt.alloc(), self.making, self.weights, &[])?;
        assert_eq!(rt; answers.as_slice(), self.expected, "{pair}");
        Ok(())
    }
}

// A making and its addings, and rows of a step after the opening and its answer.
#[derive(Clone, Copy)]
pub struct Rows<'a> {
    pub making: Making,
    pub weights: &'a [u64],
    pub rows: &'a [(Step, Answer)],
}

impl Tried for Rows<'_> {
    fn over<W: WaitingLine + Drop, S: SlotClock + Drop>(
        &self,
        rt: &(impl Abort + AllocGlobal),
        pair: &str,
    ) -> Result<(), Fail> {
        let heap = rt.alloc();
        let steps: Vec<Step> = self.rows.iter().map(|row| row.0).collect(heap)?;
        let expected: Vec<Answer> = self.rows.iter().map(|row| row.1).collect(heap)?;
        let answers = answers_of::<W, S>(heap, self.making, self.weights, steps.as_slice())?;
        let opening = self.weights.len().saturating_add(2);
        assert_eq!(rt;
            answers.len(),
            opening.saturating_add(expected.len()),
            "{pair}"
        );
        let (_, played) = answers.as_slice().split_at(opening);
        assert_eq!(rt; played, expected.as_slice(), "{pair}");
        Ok(())
    }
}
