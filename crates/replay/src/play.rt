// A whole history in one call.
ghost use Rattle.std.specs.Prelude.{◌≡◌, ◌+◌, ◌≤◌, [], length, IfOk, vec_len, vec_capacity};
ghost use Rattle.tick_machine.specs.Machine.{Config};
ghost use Rattle.link.specs.Drafting.{Drafts};
ghost use Rattle.replay.specs.History.{Lives, Plays};

use crate::adding::add_all;
use crate::desk::Desk;
use crate::played::Played;
use link::draft::Draft;
use link::error::MakeError;
use slot_clock::clock::SlotClock;
use std::alloc::{AllocError, Global};
use tick_machine::call::{Answer, Call, Making};
use waiting_line::line::WaitingLine;

// The life of a link that was made: addings, the opening, calls.
fn live<W: WaitingLine + Drop, S: SlotClock + Drop>(
    heap: Global,
    number: u64,
    mut draft: Draft<W>,
    addings: &[u64],
    calls: &[Call],
    mut answers: Vec<Answer>,
) -> Result<Played, AllocError>
    requires drafts { (c : Config) × Drafts W.WaitingLine c draft }
    requires room { (answers.items ≡ []) × (vec_len answers ≡ 0) × (length addings.now + length calls.now + 2 ≤ vec_capacity answers) }
    ensures { IfOk result (λ p. (c : Config) → Drafts W.WaitingLine c draft → number ≡ c.link → Lives c addings.now calls.now p.answers.items p.slips.items) }
{
    answers.push_reserved(Answer::Made(number));
    add_all(&mut draft, addings, &mut answers);
    let (mut desk, round) = Desk::<W, S>::open(heap, draft)?;
    answers.push_reserved(Answer::Opened(round));
    desk.call_all(calls, &mut answers);
    let slips = desk.into_slips();
    Ok(Played { answers, slips })
}

// Plays a history: a making, addings, the opening, and calls. A making that is refused is answered, and nothing more is done. The slips that are
// not settled at the end are handed back.
pub fn play<W: WaitingLine + Drop, S: SlotClock + Drop>(
    heap: Global,
    making: Making,
    addings: &[u64],
    calls: &[Call],
) -> Result<Played, AllocError>
    ensures { IfOk result (λ p. Plays making addings.now calls.now p.answers.items p.slips.items) }
{
    let mut answers = Vec::with_capacity(heap, addings.len() + calls.len() + 2)?;
    match Draft::<W>::make(heap, making) {
        Ok(draft) => live::<W, S>(heap, making.number, draft, addings, calls, answers),
        Err(MakeError::Refused(refusal)) => {
            answers.push_reserved(Answer::Refused(refusal));
            let slips = Vec::new(heap);
            Ok(Played { answers, slips })
        }
        Err(MakeError::NoMemory(e)) => Err(e),
    }
}
