// What a history gives: its answers, the first first, and the slips that were not settled in it.
use link::slip::Slip;
use tick_machine::call::Answer;

pub struct Played {
    pub answers: Vec<Answer>,
    pub slips: Vec<Slip>,
}
