// Why no draft is made: a refusal, or no memory. (Who makes a draft matches on both and on the draft at once, since each of the three goes on elsewhere.)
ghost use Rattle.std.specs.Prelude.{◌≡◌};
ghost use Rattle.link.specs.declared.error.MakeError.TheVariants.{Refused, NoMemory};
ghost use Rattle.link.specs.Making.{made_error};

use std::alloc::AllocError;
use tick_machine::refusal::Refusal;
use waiting_line::refusal::MakeRefusal;

#[derive(Clone, Copy, PartialEq, Eq, Debug)]
pub enum MakeError {
    Refused(Refusal),
    NoMemory(AllocError),
}

impl From<Refusal> for MakeError {
    ghost from_gives = { λ e r. r ≡ Refused e };

    fn from(e: Refusal) -> MakeError {
        MakeError::Refused(e)
    }
}

impl From<AllocError> for MakeError {
    ghost from_gives = { λ e r. r ≡ NoMemory e };

    fn from(e: AllocError) -> MakeError {
        MakeError::NoMemory(e)
    }
}

impl From<MakeRefusal> for MakeError {
    ghost from_gives = { λ e r. r ≡ made_error e };

    fn from(e: MakeRefusal) -> MakeError {
        match e {
            MakeRefusal::Capacity => MakeError::Refused(Refusal::Capacity),
            MakeRefusal::NoMemory => MakeError::NoMemory(AllocError),
        }
    }
}
