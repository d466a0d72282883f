// A desk: an open link together with the slips in hand, those that it has handed out and that are not settled yet. What it does is also a
// function of a link and slips that stand apart.
ghost use Rattle.std.specs.Prelude.{◌≡◌, ◌+◌, ◌≤◌, [], length, vec_len, vec_capacity, IfOk, MatchResult, ◌<◌, OnOk};
ghost use Rattle.tick_machine.specs.declared.call.Call.TheVariants.{Collect};
ghost use Rattle.tick_machine.specs.Machine.{Config};
ghost use Rattle.tick_machine.specs.Life.{settling};
ghost use Rattle.link.specs.Drafting.{Drafts, Opens};
ghost use Rattle.replay.specs.Hand.{Taken, Missing, Held, Reached, Answers, Called};

use link::draft::Draft;
use link::limits::UNSETTLED;
use link::link::Link;
use link::slip::Slip;
use link::table::place;
use slot_clock::clock::SlotClock;
use std::alloc::{AllocError, Global};
use std::marker::Model;
use tick_machine::call::{Answer, Call, Settlement};
use tick_machine::refusal::Refusal;
use waiting_line::line::WaitingLine;

pub struct Desk<W: WaitingLine, S: SlotClock> {
    link: Link<W, S>,
    slips: Vec<Slip>,
}

// Some history led to the link and the slips, and there is room for as many slips as can be out.
impl<W: WaitingLine, S: SlotClock> Model for Desk<W, S> {
    ghost use Rattle.std.specs.Prelude.{◌≤◌, vec_capacity};
    ghost use Rattle.replay.specs.Hand.{InHand, Reached};

    ghost Value = { InHand W S };

    ghost view = { λ d. record { link = d.link; slips = d.slips.items } };

    ghost invariant = { λ d. Reached W.WaitingLine S.SlotClock (record { link = d.link; slips = d.slips.items }) × (1024 ≤ vec_capacity d.slips) };
}

// Takes the slip of that link number and packet number from those in hand of the link `own`, or says why there is none.
fn take(own: u64, slips: &mut Vec<Slip>, number: u64, packet: u64) -> Result<Slip, Refusal>
    ensures found { MatchResult result (λ s. Taken own number packet slips.old.items s slips.new.items) (λ e. Missing own number packet slips.old.items e slips.new.items) }
    ensures fewer { OnOk result (vec_len slips.new < vec_capacity slips.new) }
    ensures room { vec_capacity slips.new ≡ vec_capacity slips.old }
{
    if number != own {
        return Err(Refusal::OtherLink);
    }
    // a match, since one arm alone changes the slips
    match place(slips, packet) {
        Some(i) => Ok(slips.remove(i)),
        None => Err(Refusal::NotOut),
    }
}

// A collection: the slip that is handed out comes into hand.
pub fn collect<W: WaitingLine, S: SlotClock>(link: &mut Link<W, S>, slips: &mut Vec<Slip>) -> Answer
    requires held { Reached W.WaitingLine S.SlotClock (record { link = link.old; slips = slips.old.items }) }
    requires places { 1024 ≤ vec_capacity slips.old }
    ensures answered { Answers W.WaitingLine S.SlotClock (record { link = link.old; slips = slips.old.items }) Collect result (record { link = link.new; slips = slips.new.items }) }
    ensures room { vec_capacity slips.new ≡ vec_capacity slips.old }
{
    match link.collect() {
        Some(slip) => {
            let says = slip.copy();
            slips.push_reserved(slip);
            Answer::Collected(Some(says))
        }
        None => Answer::Collected(None),
    }
}

// The slip of that link number and packet number, of those in hand of the link, is settled so. It asks nothing of the past: a slip that the link refuses,
// as it never does in a history, stays in hand.
#[tactic(auto, using(crate::proofs::Hands::in_hand_granted))]
pub fn settle<W: WaitingLine, S: SlotClock>(
    link: &mut Link<W, S>,
    slips: &mut Vec<Slip>,
    how: Settlement,
    number: u64,
    packet: u64,
) -> Answer
    ensures answered { Answers W.WaitingLine S.SlotClock (record { link = link.old; slips = slips.old.items }) (settling how number packet) result (record { link = link.new; slips = slips.new.items }) }
    ensures room { vec_capacity slips.new ≡ vec_capacity slips.old }
{
    match take(link.number(), slips, number, packet) {
        Ok(slip) => match link.settle(slip, how) {
            Ok(settled) => how.granted(settled),
            Err((e, slip)) => {
                slips.push_reserved(slip);
                Answer::Refused(e)
            }
        },
        Err(e) => Answer::Refused(e),
    }
}

// A call of an open link, with the slips in hand. (An arm for each: what differs is the call, and not how its answer is told.)
pub fn answer<W: WaitingLine, S: SlotClock>(
    link: &mut Link<W, S>,
    slips: &mut Vec<Slip>,
    call: Call,
) -> Answer
    requires held { Reached W.WaitingLine S.SlotClock (record { link = link.old; slips = slips.old.items }) }
    requires places { 1024 ≤ vec_capacity slips.old }
    ensures answered { Answers W.WaitingLine S.SlotClock (record { link = link.old; slips = slips.old.items }) call result (record { link = link.new; slips = slips.new.items }) }
    ensures room { vec_capacity slips.new ≡ vec_capacity slips.old }
{
    match call {
        Call::Arrive(session, size, tag) => link.arrive(session, size, tag).map_or_else(
            Answer::Refused,
            |(number, stamp, latest)| Answer::Accepted(number, stamp, latest),
        ),
        Call::MoveTo(tick) => link
            .move_to(tick)
            .map_or_else(Answer::Refused, |left| Answer::Moved(tick, left)),
        Call::Collect => collect(link, slips),
        Call::File(number, packet) => settle(link, slips, Settlement::File, number, packet),
        Call::Return(number, packet) => settle(link, slips, Settlement::Return, number, packet),
        Call::AskFigures(session) => link
            .figures(session)
            .map_or_else(Answer::Refused, Answer::FiguresAre),
        Call::AskTotals => Answer::TotalsAre(link.totals()),
    }
}

// Every call, in order: their answers come after those that are there. They are told of a link just opened.
pub fn call_all<W: WaitingLine, S: SlotClock>(
    link: &mut Link<W, S>,
    slips: &mut Vec<Slip>,
    calls: &[Call],
    answers: &mut Vec<Answer>,
)
    requires held { Reached W.WaitingLine S.SlotClock (record { link = link.old; slips = slips.old.items }) }
    requires places { 1024 ≤ vec_capacity slips.old }
    requires room { vec_len answers.old + length calls.now ≤ vec_capacity answers.old }
    ensures called { (c : Config) → Held W.WaitingLine S.SlotClock c [] (record { link = link.old; slips = slips.old.items }) → Called W.WaitingLine S.SlotClock c calls.now answers.old.items (record { link = link.new; slips = slips.new.items }) answers.new.items }
    ensures held { Reached W.WaitingLine S.SlotClock (record { link = link.new; slips = slips.new.items }) }
    ensures room { vec_capacity slips.new ≡ vec_capacity slips.old }
{
    for call in calls {
        answers.push_reserved(answer(link, slips, *call));
    }
}

// Every slip in hand is returned.
pub fn return_all<W: WaitingLine, S: SlotClock>(link: &mut Link<W, S>, slips: &mut Vec<Slip>)
    requires held { Reached W.WaitingLine S.SlotClock (record { link = link.old; slips = slips.old.items }) }
    ensures none { vec_len slips.new ≡ 0 }
    ensures held { Reached W.WaitingLine S.SlotClock (record { link = link.new; slips = slips.new.items }) }
    ensures room { vec_capacity slips.new ≡ vec_capacity slips.old }
{
    while let Some(slip) = slips.first() {
        let says = slip.copy();
        let _ = settle(link, slips, Settlement::Return, says.link, says.packet);
    }
}

impl<W: WaitingLine, S: SlotClock> Desk<W, S> {
    // A desk of that link and those slips in hand.
    pub fn new(link: Link<W, S>, slips: Vec<Slip>) -> Desk<W, S>
        requires held { Reached W.WaitingLine S.SlotClock (record { link = link; slips = slips.items }) }
        requires places { 1024 ≤ vec_capacity slips }
        ensures link { result.link ≡ link }
        ensures slips { result.slips ≡ slips.items }
    {
        Desk { link, slips }
    }

    // The link and the slips in hand.
    pub fn into_parts(self) -> (Link<W, S>, Vec<Slip>)
        ensures link { result.0 ≡ self.link }
        ensures slips { result.1.items ≡ self.slips }
        ensures held { Reached W.WaitingLine S.SlotClock self }
        ensures places { 1024 ≤ vec_capacity result.1 }
    {
        let Desk { link, slips } = self;
        (link, slips)
    }

    // Opens the draft, with no slip in hand; and the number of slots in a round.
    pub fn open(heap: Global, draft: Draft<W>) -> Result<(Desk<W, S>, u64), AllocError>
    where
        W: Drop,
        requires { (c : Config) × Drafts W.WaitingLine c draft }
        ensures opened { IfOk result (λ r. (c : Config) → Drafts W.WaitingLine c draft → Opens W.WaitingLine S.SlotClock c r.0.link r.1) }
        ensures none { IfOk result (λ r. r.0.slips ≡ []) }
    {
        let slips = Vec::with_capacity(heap, UNSETTLED)?;
        let (link, round) = draft.open();
        Ok((Desk { link, slips }, round))
    }

    // The slips in hand. The link is let go.
    pub fn into_slips(self) -> Vec<Slip>
    where
        W: Drop,
        S: Drop,
        ensures { result.items ≡ self.slips }
    {
        let (_link, slips) = self.into_parts();
        slips
    }

    // A collection: the slip that is handed out comes into hand.
    pub fn collect(&mut self) -> Answer
        ensures { Answers W.WaitingLine S.SlotClock self.old Collect result self.new }
    {
        collect(&mut self.link, &mut self.slips)
    }

    // The slip of that link number and packet number is settled so. A slip in hand is never refused.
    pub fn settle(&mut self, how: Settlement, number: u64, packet: u64) -> Answer
        ensures { Answers W.WaitingLine S.SlotClock self.old (settling how number packet) result self.new }
    {
        settle(&mut self.link, &mut self.slips, how, number, packet)
    }

    // A call of the link.
    pub fn answer(&mut self, call: Call) -> Answer
        ensures { Answers W.WaitingLine S.SlotClock self.old call result self.new }
    {
        answer(&mut self.link, &mut self.slips, call)
    }

    // Every call, in order, of a link just opened: their answers come after those that are there.
    pub fn call_all(&mut self, calls: &[Call], answers: &mut Vec<Answer>)
        requires { vec_len answers.old + length calls.now ≤ vec_capacity answers.old }
        ensures { (c : Config) → Held W.WaitingLine S.SlotClock c [] self.old → Called W.WaitingLine S.SlotClock c calls.now answers.old.items self.new answers.new.items }
    {
        call_all(&mut self.link, &mut self.slips, calls, answers);
    }

    // Every slip in hand is returned.
    pub fn return_all(&mut self)
        ensures { self.new.slips ≡ [] }
    {
        return_all(&mut self.link, &mut self.slips);
    }

    // Every slip in hand is returned, and the link is let go.
    pub fn close(mut self)
    where
        W: Drop,
        S: Drop,
    {
        self.return_all();
        self.into_slips().destroy_empty();
    }
}
