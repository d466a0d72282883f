// Why a slot clock refuses a call. `clock_number` of specs/Refusals gives each its number.
ghost use Rattle.std.specs.Prelude.{◌≡◌};
ghost use Rattle.slot_clock.specs.Refusals.{clock_number, nearest};

use tick_machine::refusal::Refusal;

#[derive(Clone, Copy, PartialEq, Eq, Debug)]
pub enum ClockRefusal {
    // making
    Sessions = 81,
    Weights = 82,
    // adding, and reading what is owed
    UnknownSession = 83,
    Size = 84,
    TooMuchOwed = 85,
    // running
    TicksPastEnd = 86,
}

impl ClockRefusal {
    pub fn number(self) -> u64
        ensures { result ≡ clock_number self }
    {
        self as u64
    }
}

// A slot clock's refusal as the link's own that is nearest to it. In no history does a link meet one.
impl From<ClockRefusal> for Refusal {
    ghost from_gives = { λ e r. r ≡ nearest e };

    fn from(e: ClockRefusal) -> Refusal {
        match e {
            ClockRefusal::Sessions => Refusal::TooManySessions,
            ClockRefusal::Weights => Refusal::TooMuchWeight,
            ClockRefusal::UnknownSession => Refusal::UnknownSession,
            ClockRefusal::Size => Refusal::TooLong,
            ClockRefusal::TooMuchOwed => Refusal::TooManyUnsettled,
            ClockRefusal::TicksPastEnd => Refusal::PastTheEnd,
        }
    }
}
