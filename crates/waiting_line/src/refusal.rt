// Why no line is made.
ghost use Rattle.std.specs.Prelude.{◌≡◌};
ghost use Rattle.waiting_line.specs.Lines.{make_number};
ghost use Rattle.waiting_line.specs.declared.refusal.MakeRefusal.TheVariants.{NoMemory};

use std::alloc::AllocError;

#[derive(Clone, Copy, PartialEq, Eq, Debug)]
pub enum MakeRefusal {
    // the capacity is 0 or more than 1,024
    Capacity,
    // the memory for that many pairs cannot be had
    NoMemory,
}

impl From<AllocError> for MakeRefusal {
    ghost from_gives = { λ _ r. r ≡ NoMemory };

    fn from(_: AllocError) -> Self {
        Self::NoMemory
    }
}

impl MakeRefusal {
    // The number by which the refusal is told. A want of memory has none, so the cases have no numbers of their own.
    pub fn number(self) -> Option<u64>
        ensures { result ≡ make_number self }
    {
        match self {
            MakeRefusal::Capacity => Some(13),
            MakeRefusal::NoMemory => None,
        }
    }
}
