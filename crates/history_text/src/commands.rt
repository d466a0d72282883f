// What a line can ask for, and when.
use tick_machine::call::{Making, Settlement};

// Where a history stands: before an accepted link, at a draft, at an open link without a slip in hand, or with one.
#[derive(Clone, Copy, PartialEq, Eq, Debug)]
pub enum Phase {
    Before,
    Draft,
    Open,
    Holding,
}

#[derive(Clone, Copy, PartialEq, Eq, Debug)]
pub enum Command {
    Make(Making),
    // weight
    Add(u64),
    Open,
    // session, length, tag, side by side, as the line of a history has them
    Arrive(u64, u64, u64),
    // tick
    MoveTo(u64),
    // session
    AskFigures(u64),
    AskTotals,
    Take,
    // of the packet whose slip is in hand
    Settle(Settlement),
}
