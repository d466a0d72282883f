// Looking numbers up.
ghost use Rattle.std.specs.Prelude.{◌≡◌, ℕ, MatchOption};
ghost use Rattle.link.specs.Places.{At, Nowhere};

use crate::slip::Slip;
use tick_machine::packet::Packet;

// What has a number by which it is found.
pub trait Numbered {
    ghost numbered: { Self → ℕ };

    fn number(&self) -> u64
        ensures { result ≡ numbered self.now };
}

// A packet's number.
impl Numbered for Packet {
    ghost numbered = { λ p. p.number };

    fn number(&self) -> u64 {
        self.number
    }
}

// A packet's number stands for itself.
impl Numbered for u64 {
    ghost numbered = { λ n. n };

    fn number(&self) -> u64 {
        *self
    }
}

// The number of the slip's packet.
impl Numbered for Slip {
    ghost numbered = { λ s. s.says.packet };

    fn number(&self) -> u64 {
        self.copy().packet
    }
}

// Where the number first stands.
pub fn place<T: Numbered>(items: &[T], number: u64) -> Option<usize>
    ensures { MatchOption result (Nowhere T.Numbered.numbered number items.now) (λ i. At T.Numbered.numbered number items.now i) }
{
    items.iter().position(|x| x.number() == number)
}
