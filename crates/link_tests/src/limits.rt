// The limits of making, of adding and of unsettled packets.
use crate::follow::{Drafted, Rows, Tried, slip, totals};
use link_play::step::Step;
use std::test::Fail;
use tick_machine::call::{Answer, Making};
use tick_machine::refusal::{LineRefusal, Refusal};

// Each refusal of a making, in the order of the tests, at 0 and one past each limit.
#[test]
fn makings_refused(rt: HostRuntime) -> Result<(), Fail> {
    let refused = [
        ((65_536, 0, 0, 0), Refusal::LinkNumber),
        ((65_535, 0, 0, 0), Refusal::Largest),
        ((65_535, 65_536, 0, 0), Refusal::Largest),
        ((65_535, 65_535, 0, 0), Refusal::Capacity),
        ((65_535, 65_535, 1_025, 0), Refusal::Capacity),
        ((65_535, 65_535, 1_024, 0), Refusal::FirstWeight),
        ((65_535, 65_535, 1_024, 4_097), Refusal::FirstWeight),
    ];
    for ((number, largest, capacity, weight), why) in refused {
        let making = Making {
            number,
            largest,
            capacity,
            weight,
        };
        Drafted {
            making,
            weights: &[1, 1],
            expected: &[Answer::Refused(why)],
        }
        .on_all_four(&rt)?;
    }
    Ok(())
}

// Refused addings leave the draft as it is.
#[test]
fn addings_refused(rt: HostRuntime) -> Result<(), Fail> {
    let making = Making {
        number: 65_535,
        largest: 65_535,
        capacity: 1_024,
        weight: 4_000,
    };
    let weights = [0, 97, 4_097, 95, 2, 0, 1, 1];
    let expected = [
        Answer::Made(65_535),
        Answer::Refused(Refusal::Weight),
        Answer::Refused(Refusal::TooMuchWeight),
        Answer::Refused(Refusal::TooMuchWeight),
        Answer::Added(1),
        Answer::Refused(Refusal::TooMuchWeight),
        Answer::Refused(Refusal::Weight),
        Answer::Added(2),
        Answer::Refused(Refusal::TooMuchWeight),
        Answer::Opened(4_096),
    ];
    Drafted {
        making,
        weights: &weights,
        expected: &expected,
    }
    .on_all_four(&rt)
}

// The 65th session is refused, before its weight is added up.
#[test]
fn sixty_four_sessions(rt: HostRuntime) -> Result<(), Fail> {
    let heap = rt.alloc();
    let making = Making {
        number: 1,
        largest: 1,
        capacity: 1,
        weight: 64,
    };
    let mut expected = Vec::new(heap);
    expected.push(Answer::Made(1))?;
    expected.extend((1u64..64).map(Answer::Added))?;
    expected.push(Answer::Refused(Refusal::TooManySessions))?;
    expected.push(Answer::Opened(4_096))?;
    Drafted {
        making,
        weights: &[64; 64],
        expected: expected.as_slice(),
    }
    .on_all_four(&rt)
}

// 1,024 packets are unsettled: first the waiting line is full, then, with one of them left, there is room in it, but not for one more packet.
#[test]
fn unsettled_packets(rt: HostRuntime) -> Result<(), Fail> {
    let heap = rt.alloc();
    let making = Making {
        number: 9,
        largest: 3,
        capacity: 1_024,
        weight: 1,
    };
    let mut rows = Vec::new(heap);
    for number in 0u64..1024 {
        rows.push((
            Step::Arrive(0, 1, number),
            Answer::Accepted(number, number, number + 3),
        ))?;
    }
    rows.extend([
        (
            Step::Arrive(0, 1, 0),
            Answer::Refused(Refusal::NoRoom(LineRefusal::Full)),
        ),
        (Step::MoveTo(1), Answer::Moved(1, 1)),
        (
            Step::Arrive(0, 1, 0),
            Answer::Refused(Refusal::TooManyUnsettled),
        ),
        (Step::AskTotals, totals(1_023, 0, 1, 0, 0, 0)),
        (Step::TakeAndReturn, slip(9, 0, 0, 1, 0, 0, 1)),
        (Step::Arrive(0, 1, 5), Answer::Accepted(1_024, 1_024, 1_027)),
        (Step::MoveTo(2_000), Answer::Moved(2_000, 1_024)),
        (
            Step::Arrive(0, 1, 5),
            Answer::Refused(Refusal::TooManyUnsettled),
        ),
        (Step::AskTotals, totals(0, 0, 1_024, 0, 0, 1)),
    ])?;
    Rows {
        making,
        weights: &[],
        rows: rows.as_slice(),
    }
    .on_all_four(&rt)
}
