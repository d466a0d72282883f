// Steps at an open link, and whole histories.
ghost use Rattle.std.specs.Prelude.{◌≡◌, ◌+◌, ◌≤◌, ◌++◌, length, vec_len, vec_capacity, IfOk};
ghost use Rattle.tick_machine.specs.Machine.{Config};
ghost use Rattle.link.specs.Drafting.{Drafts};
ghost use Rattle.tick_machine.specs.Life.{making_of};
ghost use Rattle.link_play.specs.Plays.{Reached, Spends, Plays, Answered, draft_replies, history_replies};

use crate::step::Step;
use link::draft::Draft;
use link::error::MakeError;
use link::link::Link;
use replay::adding::add_all;
use slot_clock::clock::SlotClock;
use std::alloc::{AllocError, Global};
use tick_machine::call::{Answer, Making, Settlement};
use waiting_line::line::WaitingLine;

// The slip of the next packet that has left is taken, and settled so: the answer to the taking. (A slip just handed out is out, so that its settlement is
// granted.)
fn take_and_settle<W: WaitingLine, S: SlotClock>(link: &mut Link<W, S>, how: Settlement) -> Answer
    requires { Reached W.WaitingLine S.SlotClock link.old }
    ensures { Spends W.WaitingLine S.SlotClock how link.old result link.new }
{
    match link.collect() {
        Some(slip) => {
            let says = slip.copy();
            match link.settle(slip, how) {
                Ok(_) => Answer::Collected(Some(says)),
                Err(_refused) => unreachable(),
            }
        }
        None => Answer::Collected(None),
    }
}

// One step.
fn play<W: WaitingLine, S: SlotClock>(link: &mut Link<W, S>, step: Step) -> Answer
    requires { Reached W.WaitingLine S.SlotClock link.old }
    ensures { Plays W.WaitingLine S.SlotClock step link.old result link.new }
{
    match step {
        Step::Arrive(session, size, tag) => link.arrive(session, size, tag).map_or_else(
            Answer::Refused,
            |(number, stamp, latest)| Answer::Accepted(number, stamp, latest),
        ),
        Step::MoveTo(tick) => link
            .move_to(tick)
            .map_or_else(Answer::Refused, |left| Answer::Moved(tick, left)),
        Step::TakeAndFile => take_and_settle(link, Settlement::File),
        Step::TakeAndReturn => take_and_settle(link, Settlement::Return),
        Step::AskFigures(session) => link
            .figures(session)
            .map_or_else(Answer::Refused, Answer::FiguresAre),
        Step::AskTotals => Answer::TotalsAre(link.totals()),
    }
}

// Every step in turn, with its answer put behind those that are there. (Room is asked, here and below, since it differs with the number of answers to come,
// so that no type can say it.)
fn play_all<W: WaitingLine, S: SlotClock>(
    link: &mut Link<W, S>,
    steps: &[Step],
    answers: &mut Vec<Answer>,
)
    requires held { Reached W.WaitingLine S.SlotClock link.old }
    requires room { vec_len answers.old + length steps.now ≤ vec_capacity answers.old }
    ensures { Answered W.WaitingLine S.SlotClock link.old steps.now answers.old.items answers.new.items }
{
    for step in steps {
        answers.push_reserved(play(link, *step));
    }
}

// The addings, the opening and the steps.
fn play_draft<W: WaitingLine + Drop, S: SlotClock + Drop>(
    mut draft: Draft<W>,
    weights: &[u64],
    steps: &[Step],
    answers: &mut Vec<Answer>,
)
    requires drafts { (c : Config) × Drafts W.WaitingLine c draft }
    requires room { vec_len answers.old + length weights.now + length steps.now + 1 ≤ vec_capacity answers.old }
    ensures { (c : Config) → Drafts W.WaitingLine c draft → answers.new.items ≡ answers.old.items ++ draft_replies c weights.now steps.now }
{
    add_all(&mut draft, weights, answers);
    let (mut link, round) = draft.open::<S>();
    answers.push_reserved(Answer::Opened(round));
    play_all(&mut link, steps, answers);
}

// A whole history: every answer from the making on. They are the tick machine's, whatever the waiting line and the slot clock are.
pub fn answers_of<W: WaitingLine + Drop, S: SlotClock + Drop>(
    heap: Global,
    making: Making,
    weights: &[u64],
    steps: &[Step],
) -> Result<Vec<Answer>, AllocError>
    ensures { IfOk result (λ v. v.items ≡ history_replies making.number (making_of making) weights.now steps.now) }
{
    match Draft::<W>::make(heap, making) {
        Ok(draft) => {
            let mut answers = Vec::with_capacity(heap, weights.len() + steps.len() + 2)?;
            answers.push_reserved(Answer::Made(making.number));
            play_draft::<W, S>(draft, weights, steps, &mut answers);
            Ok(answers)
        }
        Err(MakeError::Refused(why)) => {
            let mut answers = Vec::with_capacity(heap, 1)?;
            answers.push_reserved(Answer::Refused(why));
            Ok(answers)
        }
        Err(MakeError::NoMemory(e)) => Err(e),
    }
}
