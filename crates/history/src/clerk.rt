// The clerk of one link.
use link::draft::Draft;
use link::link::Link;
use link::slip::Slip;
use slot_clock::clock::SlotClock;
use waiting_line::line::WaitingLine;

// An open link, with the slip in hand, if there is one.
pub struct OpenLink<W: WaitingLine, S: SlotClock> {
    pub link: Link<W, S>,
    pub hand: Option<Slip>,
}

// Before an accepted link; at a draft; at an open link.
pub enum LinkClerk<W: WaitingLine, S: SlotClock> {
    Before,
    Drafting(Draft<W>),
    Serving(OpenLink<W, S>),
}
