// A desk over each pair of parts: it has the memory that it asks for, answers as the rules say, and takes back what is in hand at its end.
use crate::follow::{Tried, slip};
use link::draft::Draft;
use link::error::MakeError;
use replay::desk::Desk;
use slot_clock::clock::SlotClock;
use std::alloc::Global;
use std::process::Abort;
use std::test::Fail;
use tick_machine::call::{Answer, Call, Making};
use waiting_line::line::WaitingLine;

// The calls of a desk on a link with one session, each beside its answer.
#[derive(Clone, Copy)]
struct Asked {
    call: Call,
    expected: Answer,
}

fn opened<W: WaitingLine + Drop, S: SlotClock>(
    heap: Global,
) -> Result<(Desk<W, S>, u64), MakeError> {
    let making = Making {
        number: 7,
        largest: 10,
        capacity: 8,
        weight: 2,
    };
    let draft = Draft::<W>::make(heap, making)?;
    let opened = Desk::<W, S>::open(heap, draft)?;
    Ok(opened)
}

// How many slots its round has, and whether it answers every call as expected.
fn answered<W: WaitingLine + Drop, S: SlotClock + Drop>(
    heap: Global,
    asked: &[Asked],
) -> Option<(u64, bool)> {
    let (mut desk, round) = opened::<W, S>(heap).ok()?;
    let mut right = true;
    for each in asked {
        if desk.answer(each.call) != each.expected {
            right = false;
        }
    }
    desk.close();
    Some((round, right))
}

#[derive(Clone, Copy)]
struct Day {
    asked: [Asked; 7],
}

impl Tried for Day {
    fn over<W: WaitingLine + Drop, S: SlotClock + Drop>(
        &self,
        rt: &(impl Abort + AllocGlobal),
        pair: &str,
    ) -> Result<(), Fail> {
        assert_eq!(rt;
            answered::<W, S>(rt.alloc(), &self.asked),
            Some((2, true)),
            "{pair}"
        );
        Ok(())
    }
}

fn row(call: Call, expected: Answer) -> Asked {
    Asked { call, expected }
}

#[test]
fn a_desk_is_opened_and_answers(rt: HostRuntime) -> Result<(), Fail> {
    Day {
        asked: [
            row(Call::Arrive(0, 1, 5), Answer::Accepted(0, 0, 10)),
            row(Call::Arrive(0, 2, 6), Answer::Accepted(1, 2, 12)),
            row(Call::MoveTo(3), Answer::Moved(3, 2)),
            row(Call::Collect, slip(7, 0, 0, 1, 5, 0, 1)),
            row(Call::Collect, slip(7, 1, 0, 2, 6, 1, 3)),
            row(Call::File(7, 0), Answer::Filed(0)),
            row(Call::Collect, Answer::Collected(None)),
        ],
    }
    .on_all_four(&rt)
}
