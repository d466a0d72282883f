// A slip is handed out with a packet that has left. It has to be spent, by filing or by returning that packet: no program can make one, copy one
// or let one go.
ghost use Rattle.std.specs.Prelude.{◌≡◌};

use tick_machine::packet::SlipCopy;

pub struct Slip {
    pub(crate) says: SlipCopy,
}

impl Slip {
    // What the slip says, to be read.
    pub fn copy(&self) -> SlipCopy
        ensures { result ≡ self.now.says }
    {
        self.says
    }
}
