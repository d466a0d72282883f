// What a making takes, the calls of an open link, and every answer in a link's life.
ghost use Rattle.std.specs.Prelude.{◌≡◌};
ghost use Rattle.tick_machine.specs.Life.{granted as granted_of};

use crate::packet::SlipCopy;
use crate::refusal::Refusal;

// A call of an open link. A settlement names the slip by its link number and its packet number. (Their numbers stand side by side, here and where a call
// is taken apart, as a line of a history and the rules have them.)
#[derive(Clone, Copy, PartialEq, Eq, Debug)]
pub enum Call {
    // session, length, tag
    Arrive(u64, u64, u64),
    MoveTo(u64),
    Collect,
    File(u64, u64),
    Return(u64, u64),
    AskFigures(u64),
    AskTotals,
}

// What a making takes: the link's number, the largest length, the capacity of its waiting line and the weight of session 0.
#[derive(Clone, Copy, PartialEq, Eq, Debug)]
pub struct Making {
    pub number: u64,
    pub largest: u64,
    pub capacity: u64,
    pub weight: u64,
}

// How a packet that is out is settled.
#[derive(Clone, Copy, PartialEq, Eq, Debug)]
pub enum Settlement {
    File,
    Return,
}

// The bytes of a session: accepted, sent and served; the lead, which is sent minus served; those of its waiting packets.
#[derive(Clone, Copy, PartialEq, Eq, Debug)]
pub struct Figures {
    pub accepted: u64,
    pub sent: u64,
    pub served: u64,
    pub lead: i64,
    pub waiting: u64,
}

// The packets of a link, by where they are.
#[derive(Clone, Copy, PartialEq, Eq, Debug)]
pub struct Totals {
    pub waiting: u64,
    pub sending: u64,
    pub left: u64,
    pub out: u64,
    pub filed: u64,
    pub returned: u64,
}

// An answer.
#[derive(Clone, Copy, PartialEq, Eq, Debug)]
pub enum Answer {
    // the link's number; the new session's number; the number of slots in a round
    Made(u64),
    Added(u64),
    Opened(u64),
    // packet number, stamp, latest tick
    Accepted(u64, u64, u64),
    // the clock, and how many packets left in the move
    Moved(u64, u64),
    Collected(Option<SlipCopy>),
    // the packet's number
    Filed(u64),
    Returned(u64),
    FiguresAre(Figures),
    TotalsAre(Totals),
    Refused(Refusal),
}

impl Settlement {
    // What is answered where the packet is settled so.
    pub fn granted(self, packet: u64) -> Answer
        ensures { result ≡ granted_of self packet }
    {
        match self {
            Settlement::File => Answer::Filed(packet),
            Settlement::Return => Answer::Returned(packet),
        }
    }
}
