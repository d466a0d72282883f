// What becomes of a step, and how it is told.
ghost use Rattle.std.specs.Prelude.{◌≡◌};
ghost use Rattle.stamping.specs.declared.outcome.Refused.TheVariants.{NotTimed, NoPlace};

use slot_clock::refusal::ClockRefusal;
use std::fmt;
use tick_machine::refusal::LineRefusal;

// What a step did.
#[derive(Clone, Copy)]
pub enum Done {
    // a packet waits with this stamp
    Waits(u64),
    // so many ticks passed
    Ran(u64),
}

// Why it did nothing.
#[derive(Clone, Copy)]
pub enum Refused {
    // a clock refused
    NotTimed(ClockRefusal),
    // a waiting line refused
    NoPlace(LineRefusal),
}

impl From<ClockRefusal> for Refused {
    ghost from_gives = { λ e r. r ≡ NotTimed e };

    fn from(e: ClockRefusal) -> Refused {
        Refused::NotTimed(e)
    }
}

impl From<LineRefusal> for Refused {
    ghost from_gives = { λ e r. r ≡ NoPlace e };

    fn from(e: LineRefusal) -> Refused {
        Refused::NoPlace(e)
    }
}

impl Refused {
    fn number(self) -> u64 {
        match self {
            Refused::NotTimed(refusal) => refusal.number(),
            Refused::NoPlace(refusal) => refusal.number(),
        }
    }

    fn reason(self) -> &'static str {
        match self {
            Refused::NotTimed(refusal) => match refusal {
                ClockRefusal::Sessions => "there are not 1 to 64 weights",
                ClockRefusal::Weights => "a weight is 0, or they pass 4096 in all",
                ClockRefusal::UnknownSession => "there is no such session",
                ClockRefusal::Size => "its length is not 1 to 65535",
                ClockRefusal::TooMuchOwed => "too many bytes are owed",
                ClockRefusal::TicksPastEnd => "the ticks pass the end of the clock",
            },
            Refused::NoPlace(refusal) => match refusal {
                LineRefusal::Full => "the line is full",
                LineRefusal::Twice => "its stamp waits already",
            },
        }
    }
}

impl fmt::Display for Done {
    fn fmt<W: fmt::Write>(&self, f: &mut fmt::Formatter<W>) -> fmt::Result {
        match self {
            Done::Waits(stamp) => write!(f, "stamp {stamp}"),
            Done::Ran(ticks) => write!(f, "{ticks} ticks"),
        }
    }
}

impl fmt::Display for Refused {
    fn fmt<W: fmt::Write>(&self, f: &mut fmt::Formatter<W>) -> fmt::Result {
        write!(f, "{}, {}", self.number(), self.reason())
    }
}
