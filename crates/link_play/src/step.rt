// A step at an open link. A slip is spent in the step that takes it.
#[derive(Clone, Copy, PartialEq, Eq, Debug)]
pub enum Step {
    // session, length, tag
    Arrive(u64, u64, u64),
    MoveTo(u64),
    // two words, not one with a settlement in it, since each step is a row of the tables of histories, which would read longer
    TakeAndFile,
    TakeAndReturn,
    AskFigures(u64),
    AskTotals,
}
