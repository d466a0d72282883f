// What a line is answered.
use history_text::faults::Fault;
use tick_machine::call::Answer;

// A fault in a line, which is counted from 1; an input that is too long; or the link's answer.
#[derive(Clone, Copy, PartialEq, Eq, Debug)]
pub enum Reply {
    Fault(u64, Fault),
    TooLong,
    Answer(Answer),
}

// An answer, to be shown.
#[derive(Clone, Copy, PartialEq, Eq, Debug)]
pub struct Said(pub Answer);
