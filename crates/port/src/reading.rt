// Calls from C.
ghost use Rattle.port.specs.Records.{Reads};

use crate::records::CallRecord;
use tick_machine::call::Call;

// No call has the kind.
#[derive(Clone, Copy, PartialEq, Eq, Debug)]
pub struct UnknownKind {
    pub kind: u64,
}

// The call that a record is. Its kind is a number, since C has no enums that hold numbers.
impl TryFrom<CallRecord> for Call {
    type Error = UnknownKind;

    ghost try_from_gives = { Reads };

    fn try_from(asked: CallRecord) -> Result<Call, UnknownKind> {
        let CallRecord { kind, a, b, c } = asked;
        match kind {
            1 => Ok(Call::Arrive(a, b, c)),
            2 => Ok(Call::MoveTo(a)),
            3 => Ok(Call::Collect),
            4 => Ok(Call::File(a, b)),
            5 => Ok(Call::Return(a, b)),
            6 => Ok(Call::AskFigures(a)),
            7 => Ok(Call::AskTotals),
            _ => Err(UnknownKind { kind }),
        }
    }
}
