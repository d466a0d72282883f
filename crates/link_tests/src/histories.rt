// Histories and what each step is answered. A slip is taken and spent in one step.
use crate::follow::{Rows, Tried, figures, slip, totals};
use link_play::step::Step;
use std::test::Fail;
use tick_machine::call::{Answer, Making};
use tick_machine::refusal::{LineRefusal, Refusal};

// Weights 2 and 1: the lesser stamp goes first, a lead may be negative, a session that was away starts at V.
#[test]
fn first_link(rt: HostRuntime) -> Result<(), Fail> {
    let making = Making {
        number: 7,
        largest: 10,
        capacity: 8,
        weight: 2,
    };
    let rows = [
        (Step::Arrive(0, 6, 100), Answer::Accepted(0, 7, 17)),
        (Step::Arrive(1, 2, 101), Answer::Accepted(1, 5, 15)),
        (Step::AskTotals, totals(2, 0, 0, 0, 0, 0)),
        (Step::MoveTo(2), Answer::Moved(2, 1)),
        (Step::AskFigures(0), figures(6, 0, 2, -2, 6)),
        (Step::AskFigures(1), figures(2, 2, 0, 2, 0)),
        (Step::AskTotals, totals(1, 0, 1, 0, 0, 0)),
        (Step::TakeAndFile, slip(7, 1, 1, 2, 101, 0, 2)),
        (Step::MoveTo(3), Answer::Moved(3, 0)),
        (Step::Arrive(1, 1, 102), Answer::Accepted(2, 8, 18)),
        (Step::MoveTo(8), Answer::Moved(8, 1)),
        (Step::AskTotals, totals(1, 0, 1, 0, 1, 0)),
        (Step::MoveTo(9), Answer::Moved(9, 1)),
        (Step::TakeAndReturn, slip(7, 0, 0, 6, 100, 2, 8)),
        (Step::TakeAndFile, slip(7, 2, 1, 1, 102, 8, 9)),
        (Step::TakeAndFile, Answer::Collected(None)),
        (Step::AskFigures(0), figures(6, 6, 6, 0, 0)),
        (Step::AskFigures(1), figures(3, 3, 3, 0, 0)),
        (Step::MoveTo(20), Answer::Moved(20, 0)),
        (Step::Arrive(0, 1, 103), Answer::Accepted(3, 9, 30)),
        (Step::AskFigures(0), figures(7, 6, 6, 0, 1)),
        (Step::MoveTo(21), Answer::Moved(21, 1)),
        (Step::TakeAndFile, slip(7, 3, 0, 1, 103, 20, 21)),
        (Step::AskTotals, totals(0, 0, 0, 0, 3, 1)),
    ];
    Rows {
        making,
        weights: &[1],
        rows: &rows,
    }
    .on_all_four(&rt)
}

// Weights 1 and 1 with room for one packet: a packet leaves at its latest tick.
#[test]
fn second_link(rt: HostRuntime) -> Result<(), Fail> {
    let making = Making {
        number: 8,
        largest: 10,
        capacity: 1,
        weight: 1,
    };
    let rows = [
        (Step::Arrive(0, 10, 1), Answer::Accepted(0, 18, 28)),
        (
            Step::Arrive(1, 1, 2),
            Answer::Refused(Refusal::NoRoom(LineRefusal::Full)),
        ),
        (Step::MoveTo(1), Answer::Moved(1, 0)),
        (Step::Arrive(1, 1, 2), Answer::Accepted(1, 1, 11)),
        (
            Step::Arrive(1, 1, 3),
            Answer::Refused(Refusal::NoRoom(LineRefusal::Full)),
        ),
        (Step::AskFigures(0), figures(10, 1, 1, 0, 0)),
        (Step::MoveTo(10), Answer::Moved(10, 1)),
        (Step::AskFigures(0), figures(10, 10, 9, 1, 0)),
        (Step::AskFigures(1), figures(1, 0, 1, -1, 1)),
        (Step::MoveTo(11), Answer::Moved(11, 1)),
        (Step::AskTotals, totals(0, 0, 2, 0, 0, 0)),
        (Step::TakeAndFile, slip(8, 0, 0, 10, 1, 0, 10)),
        (Step::TakeAndReturn, slip(8, 1, 1, 1, 2, 10, 11)),
        (Step::TakeAndFile, Answer::Collected(None)),
        (Step::AskTotals, totals(0, 0, 0, 0, 1, 1)),
    ];
    Rows {
        making,
        weights: &[1],
        rows: &rows,
    }
    .on_all_four(&rt)
}

// A session that comes late gets slots from V on, and not from its own next.
#[test]
fn second_link_later(rt: HostRuntime) -> Result<(), Fail> {
    let making = Making {
        number: 8,
        largest: 10,
        capacity: 1,
        weight: 1,
    };
    let rows = [
        (Step::Arrive(0, 10, 1), Answer::Accepted(0, 18, 28)),
        (Step::MoveTo(10), Answer::Moved(10, 1)),
        (Step::Arrive(1, 3, 2), Answer::Accepted(1, 23, 24)),
        (Step::AskFigures(0), figures(10, 10, 10, 0, 0)),
        (Step::AskFigures(1), figures(3, 0, 0, 0, 3)),
        (Step::MoveTo(12), Answer::Moved(12, 0)),
        (Step::AskFigures(1), figures(3, 2, 2, 0, 0)),
        (Step::MoveTo(13), Answer::Moved(13, 1)),
        (Step::TakeAndReturn, slip(8, 0, 0, 10, 1, 0, 10)),
        (Step::TakeAndFile, slip(8, 1, 1, 3, 2, 10, 13)),
        (Step::AskTotals, totals(0, 0, 0, 0, 1, 1)),
    ];
    Rows {
        making,
        weights: &[1],
        rows: &rows,
    }
    .on_all_four(&rt)
}

// Each refusal of an open link in the order of the tests; none changes anything.
#[test]
fn refused_calls(rt: HostRuntime) -> Result<(), Fail> {
    let making = Making {
        number: 7,
        largest: 10,
        capacity: 2,
        weight: 2,
    };
    let rows = [
        (
            Step::Arrive(2, 0, 1),
            Answer::Refused(Refusal::UnknownSession),
        ),
        (
            Step::Arrive(2, 11, 1),
            Answer::Refused(Refusal::UnknownSession),
        ),
        (Step::Arrive(1, 0, 1), Answer::Refused(Refusal::Empty)),
        (Step::Arrive(1, 11, 1), Answer::Refused(Refusal::TooLong)),
        (
            Step::AskFigures(2),
            Answer::Refused(Refusal::UnknownSession),
        ),
        (
            Step::MoveTo(17_592_186_044_417),
            Answer::Refused(Refusal::PastTheEnd),
        ),
        (Step::AskTotals, totals(0, 0, 0, 0, 0, 0)),
        (Step::Arrive(0, 10, 5), Answer::Accepted(0, 13, 23)),
        (Step::Arrive(1, 10, 6), Answer::Accepted(1, 29, 39)),
        (
            Step::Arrive(0, 1, 7),
            Answer::Refused(Refusal::NoRoom(LineRefusal::Full)),
        ),
        (
            Step::Arrive(2, 1, 7),
            Answer::Refused(Refusal::UnknownSession),
        ),
        (Step::Arrive(0, 11, 7), Answer::Refused(Refusal::TooLong)),
        (Step::MoveTo(3), Answer::Moved(3, 0)),
        (Step::MoveTo(2), Answer::Refused(Refusal::TickPassed)),
        (Step::MoveTo(3), Answer::Moved(3, 0)),
        (Step::MoveTo(0), Answer::Refused(Refusal::TickPassed)),
        (
            Step::MoveTo(17_592_186_044_417),
            Answer::Refused(Refusal::PastTheEnd),
        ),
        (Step::AskFigures(0), figures(10, 3, 2, 1, 0)),
        (Step::AskFigures(1), figures(10, 0, 1, -1, 10)),
        (
            Step::AskFigures(2),
            Answer::Refused(Refusal::UnknownSession),
        ),
        (Step::AskTotals, totals(1, 1, 0, 0, 0, 0)),
        (Step::Arrive(0, 1, 7), Answer::Accepted(2, 15, 25)),
        (
            Step::Arrive(0, 1, 8),
            Answer::Refused(Refusal::NoRoom(LineRefusal::Full)),
        ),
        (Step::MoveTo(21), Answer::Moved(21, 3)),
        (Step::AskTotals, totals(0, 0, 3, 0, 0, 0)),
        (Step::TakeAndFile, slip(7, 0, 0, 10, 5, 0, 10)),
        (Step::TakeAndReturn, slip(7, 2, 0, 1, 7, 10, 11)),
        (Step::TakeAndFile, slip(7, 1, 1, 10, 6, 11, 21)),
        (Step::TakeAndFile, Answer::Collected(None)),
        (Step::AskTotals, totals(0, 0, 0, 0, 2, 1)),
    ];
    Rows {
        making,
        weights: &[1],
        rows: &rows,
    }
    .on_all_four(&rt)
}

// No packet at all.
#[test]
fn empty_link(rt: HostRuntime) -> Result<(), Fail> {
    let making = Making {
        number: 0,
        largest: 1,
        capacity: 1,
        weight: 4096,
    };
    let rows = [
        (Step::AskTotals, totals(0, 0, 0, 0, 0, 0)),
        (Step::TakeAndFile, Answer::Collected(None)),
        (Step::TakeAndReturn, Answer::Collected(None)),
        (Step::AskFigures(0), figures(0, 0, 0, 0, 0)),
        (
            Step::AskFigures(1),
            Answer::Refused(Refusal::UnknownSession),
        ),
        (Step::MoveTo(0), Answer::Moved(0, 0)),
        (Step::MoveTo(5), Answer::Moved(5, 0)),
        (Step::MoveTo(5), Answer::Moved(5, 0)),
        (Step::MoveTo(4), Answer::Refused(Refusal::TickPassed)),
        (Step::TakeAndFile, Answer::Collected(None)),
        (Step::AskFigures(0), figures(0, 0, 0, 0, 0)),
        (Step::AskTotals, totals(0, 0, 0, 0, 0, 0)),
    ];
    Rows {
        making,
        weights: &[],
        rows: &rows,
    }
    .on_all_four(&rt)
}

// A move to the last tick is one call like any other; past it no clock goes.
#[test]
fn last_tick(rt: HostRuntime) -> Result<(), Fail> {
    let making = Making {
        number: 65535,
        largest: 65_535,
        capacity: 1024,
        weight: 4095,
    };
    let rows = [
        (Step::Arrive(1, 3, 9), Answer::Accepted(0, 12_287, 77_822)),
        (
            Step::Arrive(0, 65_535, 10),
            Answer::Accepted(1, 65_550, 131_085),
        ),
        (
            Step::MoveTo(17_592_186_044_416),
            Answer::Moved(17_592_186_044_416, 2),
        ),
        (Step::AskTotals, totals(0, 0, 2, 0, 0, 0)),
        (Step::AskFigures(0), figures(65_535, 65_535, 65_535, 0, 0)),
        (Step::AskFigures(1), figures(3, 3, 3, 0, 0)),
        (
            Step::MoveTo(17_592_186_044_417),
            Answer::Refused(Refusal::PastTheEnd),
        ),
        (
            Step::MoveTo(17_592_186_044_416),
            Answer::Moved(17_592_186_044_416, 0),
        ),
        (
            Step::MoveTo(17_592_186_044_415),
            Answer::Refused(Refusal::TickPassed),
        ),
        (
            Step::Arrive(0, 2, 11),
            Answer::Accepted(2, 65_552, 17_592_186_109_952),
        ),
        (
            Step::Arrive(1, 1, 12),
            Answer::Accepted(3, 69_631, 17_592_186_114_031),
        ),
        (
            Step::MoveTo(17_592_186_044_417),
            Answer::Refused(Refusal::PastTheEnd),
        ),
        (
            Step::MoveTo(17_592_186_044_416),
            Answer::Moved(17_592_186_044_416, 0),
        ),
        (Step::TakeAndFile, slip(65535, 0, 1, 3, 9, 0, 3)),
        (Step::TakeAndFile, slip(65535, 1, 0, 65_535, 10, 3, 65_538)),
        (Step::TakeAndFile, Answer::Collected(None)),
        (Step::AskFigures(0), figures(65_537, 65_535, 65_535, 0, 2)),
        (Step::AskTotals, totals(2, 0, 0, 0, 2, 0)),
    ];
    Rows {
        making,
        weights: &[1],
        rows: &rows,
    }
    .on_all_four(&rt)
}

// Packets are collected in the order in which they left, whatever the order of their coming.
#[test]
fn order_of_leaving(rt: HostRuntime) -> Result<(), Fail> {
    let making = Making {
        number: 3,
        largest: 50,
        capacity: 8,
        weight: 1,
    };
    let rows = [
        (Step::Arrive(0, 9, 1), Answer::Accepted(0, 64, 114)),
        (Step::Arrive(1, 9, 2), Answer::Accepted(1, 33, 83)),
        (Step::Arrive(2, 9, 3), Answer::Accepted(2, 14, 64)),
        (Step::Arrive(2, 1, 4), Answer::Accepted(3, 15, 65)),
        (Step::Arrive(1, 1, 5), Answer::Accepted(4, 34, 84)),
        (Step::Arrive(0, 1, 6), Answer::Accepted(5, 72, 122)),
        (Step::MoveTo(4), Answer::Moved(4, 0)),
        (Step::AskTotals, totals(5, 1, 0, 0, 0, 0)),
        (Step::Arrive(2, 20, 7), Answer::Accepted(6, 47, 97)),
        (Step::MoveTo(30), Answer::Moved(30, 4)),
        (Step::AskTotals, totals(2, 1, 4, 0, 0, 0)),
        (Step::TakeAndFile, slip(3, 2, 2, 9, 3, 0, 9)),
        (Step::TakeAndReturn, slip(3, 3, 2, 1, 4, 9, 10)),
        (Step::TakeAndFile, slip(3, 1, 1, 9, 2, 10, 19)),
        (Step::AskFigures(2), figures(30, 20, 18, 2, 0)),
        (Step::MoveTo(60), Answer::Moved(60, 3)),
        (Step::TakeAndFile, slip(3, 4, 1, 1, 5, 19, 20)),
        (Step::TakeAndFile, slip(3, 6, 2, 20, 7, 20, 40)),
        (Step::TakeAndFile, slip(3, 0, 0, 9, 1, 40, 49)),
        (Step::TakeAndFile, slip(3, 5, 0, 1, 6, 49, 50)),
        (Step::TakeAndFile, Answer::Collected(None)),
        (Step::AskFigures(0), figures(10, 10, 10, 0, 0)),
        (Step::AskFigures(1), figures(10, 10, 10, 0, 0)),
        (Step::AskFigures(2), figures(30, 30, 30, 0, 0)),
        (Step::AskTotals, totals(0, 0, 0, 0, 6, 1)),
    ];
    Rows {
        making,
        weights: &[2, 5],
        rows: &rows,
    }
    .on_all_four(&rt)
}

// Bytes of the packet on the line count as sent; it waits no more, and is not yet left.
#[test]
fn on_the_line(rt: HostRuntime) -> Result<(), Fail> {
    let making = Making {
        number: 4,
        largest: 100,
        capacity: 3,
        weight: 3,
    };
    let rows = [
        (Step::Arrive(0, 100, 1), Answer::Accepted(0, 165, 265)),
        (Step::Arrive(1, 40, 2), Answer::Accepted(1, 99, 199)),
        (Step::MoveTo(1), Answer::Moved(1, 0)),
        (Step::AskFigures(1), figures(40, 1, 0, 1, 0)),
        (Step::AskTotals, totals(1, 1, 0, 0, 0, 0)),
        (Step::MoveTo(39), Answer::Moved(39, 0)),
        (Step::AskFigures(1), figures(40, 39, 15, 24, 0)),
        (Step::MoveTo(40), Answer::Moved(40, 1)),
        (Step::AskFigures(0), figures(100, 0, 24, -24, 100)),
        (Step::MoveTo(41), Answer::Moved(41, 0)),
        (Step::AskTotals, totals(0, 1, 1, 0, 0, 0)),
        (Step::AskFigures(0), figures(100, 1, 25, -24, 0)),
        (Step::AskFigures(1), figures(40, 40, 16, 24, 0)),
        (Step::TakeAndFile, slip(4, 1, 1, 40, 2, 0, 40)),
        (Step::TakeAndFile, Answer::Collected(None)),
        (Step::MoveTo(139), Answer::Moved(139, 0)),
        (Step::MoveTo(140), Answer::Moved(140, 1)),
        (Step::TakeAndFile, slip(4, 0, 0, 100, 1, 40, 140)),
        (Step::AskFigures(0), figures(100, 100, 100, 0, 0)),
        (Step::AskFigures(1), figures(40, 40, 40, 0, 0)),
        (Step::AskTotals, totals(0, 0, 0, 0, 2, 0)),
    ];
    Rows {
        making,
        weights: &[2],
        rows: &rows,
    }
    .on_all_four(&rt)
}
