// Why a call is refused. `numbers` of specs/Refusals gives each its number, or its two.
ghost use Rattle.std.specs.Prelude.{◌≡◌, List, [], ◌∷◌};
ghost use Rattle.tick_machine.specs.Refusals.{line_number, outer, inner};
ghost use Rattle.tick_machine.specs.declared.refusal.Refusal.TheVariants.{NoRoom};

// A waiting line refuses a pair.
#[derive(Clone, Copy, PartialEq, Eq, Debug)]
pub enum LineRefusal {
    Full = 71,
    Twice = 72,
}

impl LineRefusal {
    pub fn number(self) -> u64
        ensures { result ≡ line_number self }
    {
        self as u64
    }
}

// A link refuses a call.
#[derive(Clone, Copy, PartialEq, Eq, Debug)]
pub enum Refusal {
    // making
    LinkNumber,
    Largest,
    Capacity,
    FirstWeight,
    // adding a session
    Weight,
    TooManySessions,
    TooMuchWeight,
    // arrival and figures
    UnknownSession,
    Empty,
    TooLong,
    NoRoom(LineRefusal),
    TooManyUnsettled,
    // clock move
    TickPassed,
    PastTheEnd,
    // settlement
    OtherLink,
    NotOut,
}

impl From<LineRefusal> for Refusal {
    ghost from_gives = { λ e r. r ≡ NoRoom e };

    fn from(e: LineRefusal) -> Refusal {
        Refusal::NoRoom(e)
    }
}

impl Refusal {
    // The link's own number. (A match, since an enum whose case carries a value has no numbers of its own.)
    pub fn number(self) -> u64
        ensures { result ≡ outer self }
    {
        match self {
            Refusal::LinkNumber => 11,
            Refusal::Largest => 12,
            Refusal::Capacity => 13,
            Refusal::FirstWeight => 14,
            Refusal::Weight => 21,
            Refusal::TooManySessions => 22,
            Refusal::TooMuchWeight => 23,
            Refusal::UnknownSession => 31,
            Refusal::Empty => 32,
            Refusal::TooLong => 33,
            Refusal::NoRoom(_) => 34,
            Refusal::TooManyUnsettled => 35,
            Refusal::TickPassed => 41,
            Refusal::PastTheEnd => 42,
            Refusal::OtherLink => 52,
            Refusal::NotOut => 53,
        }
    }

    // The refusal from below that it carries.
    pub fn inside(self) -> Option<LineRefusal>
        ensures { result ≡ inner self }
    {
        match self {
            Refusal::NoRoom(e) => Some(e),
            _ => None,
        }
    }
}
