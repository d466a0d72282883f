// From a making and its weights to a draft that may be opened.
ghost use Rattle.std.specs.Prelude.{◌≡◌, drop};
ghost use Rattle.tick_machine.specs.Machine.{Config};
ghost use Rattle.tick_machine.specs.Life.{made};
ghost use Rattle.link.specs.Drafting.{Drafts};
ghost use Rattle.port.specs.Preparing.{first_weight, all_added, AddsAll, Prepares};

use link::draft::Draft;
use link::error::MakeError;
use std::alloc::Global;
use tick_machine::call::Making;
use tick_machine::refusal::Refusal;
use waiting_line::line::WaitingLine;

// The making, with the first weight, and the weights of the other sessions; a list of none counts as weight 0.
fn parts_of(number: u64, largest: u64, capacity: u64, weights: &[u64]) -> (Making, &[u64])
    ensures making { result.0 ≡ record { number = number; largest = largest; capacity = capacity; weight = first_weight weights.now } }
    ensures others { result.1.now ≡ drop 1 weights.now }
{
    let (weight, others) = match weights {
        [first, others @ ..] => (*first, others),
        [] => (0, weights),
    };
    let making = Making {
        number,
        largest,
        capacity,
        weight,
    };
    (making, others)
}

// One adding after the other, up to the first that is refused.
fn add_all<W: WaitingLine>(draft: &mut Draft<W>, weights: &[u64]) -> Result<(), Refusal>
    ensures { (c : Config) → Drafts W.WaitingLine c draft.old → AddsAll W.WaitingLine (all_added c weights.now) result draft.new }
{
    for weight in weights {
        draft.add(*weight)?;
    }
    Ok(())
}

// A draft with a session for each weight. (Its numbers stand apart, as they come from C.)
pub fn prepare<W: WaitingLine + Drop>(
    heap: Global,
    number: u64,
    largest: u64,
    capacity: u64,
    weights: &[u64],
) -> Result<Draft<W>, MakeError>
    ensures { Prepares W.WaitingLine (made number largest capacity (first_weight weights.now)) (drop 1 weights.now) result }
{
    let (making, others) = parts_of(number, largest, capacity, weights);
    let mut draft = Draft::make(heap, making)?;
    add_all(&mut draft, others)?;
    Ok(draft)
}
