// What is wrong with a line.
ghost use Rattle.std.specs.Prelude.{◌≡◌};
ghost use Rattle.history_text.specs.Causes.{cause_number};

#[derive(Clone, Copy, PartialEq, Eq, Debug)]
pub enum Cause {
    // unknown word, word out of turn, wrong number of fields, no such number
    Unknown = 61,
    Untimely = 62,
    Miscounted = 63,
    NoNumber = 64,
}

impl Cause {
    pub fn number(self) -> u64
        ensures { result ≡ cause_number self }
    {
        self as u64
    }
}

// The cause, and the byte in the line, counted from 1.
#[derive(Clone, Copy, PartialEq, Eq, Debug)]
pub struct Fault {
    pub cause: Cause,
    pub byte: usize,
}
