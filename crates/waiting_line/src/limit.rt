// How many pairs a line may have.
ghost use Rattle.std.specs.Prelude.{◌≡◌, ◌≤◌, Ok, Err, true, false, nat_lt, if◌then◌else◌, MatchResult};
ghost use Rattle.tick_machine.specs.declared.refusal.LineRefusal.TheVariants.{Full};
ghost use Rattle.waiting_line.specs.declared.refusal.MakeRefusal.TheVariants.{Capacity};
ghost use Rattle.waiting_line.specs.Lines.{fitting};

use crate::refusal::MakeRefusal;
use tick_machine::refusal::LineRefusal;

// From 1 to 1,024 pairs.
#[derive(Clone, Copy)]
pub struct Limit {
    most: u64,
    ghost some: { 1 ≤ most },
    ghost few: { most ≤ 1024 },
}

impl TryFrom<u64> for Limit {
    type Error = MakeRefusal;

    ghost try_from_gives = { λ most r. MatchResult r (λ l. (l.most ≡ most) × (fitting most ≡ true)) (λ e. (e ≡ Capacity) × (fitting most ≡ false)) };

    fn try_from(most: u64) -> Result<Limit, MakeRefusal> {
        if (1..=1024).contains(&most) {
            Ok(Limit { most })
        } else {
            Err(MakeRefusal::Capacity)
        }
    }
}

impl Limit {
    // For how many pairs memory is reserved.
    pub fn places(self) -> usize
        ensures { result ≡ self.most }
    {
        self.most as usize
    }

    // Whether one more pair may come to so many.
    pub fn room(self, size: u64) -> Result<(), LineRefusal>
        ensures { result ≡ (if nat_lt size self.most then Ok tt else Err Full) }
    {
        if size < self.most {
            Ok(())
        } else {
            Err(LineRefusal::Full)
        }
    }
}
