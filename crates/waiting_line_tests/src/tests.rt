use std::alloc::Global;
use std::process::Abort;
use std::test::Fail;
use tick_machine::refusal::LineRefusal;
use waiting_line::heap_line::HeapLine;
use waiting_line::line::WaitingLine;
use waiting_line::pair::Pair;
use waiting_line::refusal::MakeRefusal;
use waiting_line::sorted_line::SortedLine;

// A call and its answer.
#[derive(Clone, Copy)]
enum Step {
    Room(Result<(), LineRefusal>),
    // stamp, packet, answer
    Put(u64, u64, Result<(), LineRefusal>),
    Least(Option<Pair>),
    Take(Option<Pair>),
    Size(u64),
}

const FULL: Result<(), LineRefusal> = Err(LineRefusal::Full);

const TWICE: Result<(), LineRefusal> = Err(LineRefusal::Twice);

const fn pair(stamp: u64, packet: u64) -> Option<Pair> {
    Some(Pair { stamp, packet })
}

// Plays the step with this place in its table.
fn play<W: WaitingLine>(rt: &impl Abort, line: &mut W, at: u64, step: Step) {
    match step {
        Step::Room(answer) => assert_eq!(rt; line.room(), answer, "at {at}"),
        Step::Put(stamp, packet, answer) => {
            assert_eq!(rt; line.put(Pair { stamp, packet }), answer, "at {at}");
        }
        Step::Least(first) => assert_eq!(rt; line.least(), first, "at {at}"),
        Step::Take(first) => assert_eq!(rt; line.take(), first, "at {at}"),
        Step::Size(count) => assert_eq!(rt; line.size(), count, "at {at}"),
    }
}

// Plays a table on a new line.
fn plays<W: WaitingLine + Drop>(
    rt: &impl Abort,
    heap: Global,
    capacity: u64,
    steps: &[Step],
) -> Result<(), Fail> {
    let mut line = W::make(heap, capacity)?;
    for (at, step) in steps.iter().enumerate() {
        play(rt, &mut line, at as u64, *step);
    }
    Ok(())
}

// Puts out of order, an equal stamp, a full line, which comes before an equal stamp, and an emptied line.
fn three<W: WaitingLine + Drop>(rt: &impl Abort, heap: Global) -> Result<(), Fail> {
    let steps = [
        Step::Room(Ok(())),
        Step::Least(None),
        Step::Take(None),
        Step::Size(0),
        Step::Put(50, 1, Ok(())),
        Step::Put(30, 2, Ok(())),
        Step::Put(50, 3, TWICE),
        Step::Put(30, 3, TWICE),
        Step::Size(2),
        Step::Room(Ok(())),
        Step::Least(pair(30, 2)),
        Step::Put(40, 4, Ok(())),
        Step::Size(3),
        Step::Room(FULL),
        Step::Put(60, 5, FULL),
        Step::Put(40, 5, FULL),
        Step::Take(pair(30, 2)),
        Step::Put(40, 6, TWICE),
        Step::Put(30, 7, Ok(())),
        Step::Least(pair(30, 7)),
        Step::Take(pair(30, 7)),
        Step::Take(pair(40, 4)),
        Step::Least(pair(50, 1)),
        Step::Take(pair(50, 1)),
        Step::Take(None),
        Step::Size(0),
        Step::Put(50, 8, Ok(())),
        Step::Put(10, 9, Ok(())),
        Step::Take(pair(10, 9)),
    ];
    plays::<W>(rt, heap, 3, &steps)
}

// A line for one pair, with the least and the greatest stamp.
fn one<W: WaitingLine + Drop>(rt: &impl Abort, heap: Global) -> Result<(), Fail> {
    let steps = [
        Step::Put(u64::MAX, 1, Ok(())),
        Step::Put(u64::MAX, 2, FULL),
        Step::Put(0, 2, FULL),
        Step::Take(pair(u64::MAX, 1)),
        Step::Put(0, 3, Ok(())),
        Step::Room(FULL),
        Step::Least(pair(0, 3)),
        Step::Take(pair(0, 3)),
        Step::Take(None),
        Step::Room(Ok(())),
    ];
    plays::<W>(rt, heap, 1, &steps)
}

// As many pairs as any line may have, put out of order and taken in order.
fn many<W: WaitingLine + Drop>(rt: &impl Abort, heap: Global) -> Result<(), Fail> {
    let mut line = W::make(heap, 1024)?;
    for i in 0u64..1024 {
        play(rt, &mut line, i, Step::Put(i * 389 % 1024 + 1, i, Ok(())));
    }
    play(rt, &mut line, 1024, Step::Put(0, 1024, FULL));
    play(rt, &mut line, 1025, Step::Size(1024));
    play(rt, &mut line, 1026, Step::Take(pair(1, 0)));
    play(rt, &mut line, 1027, Step::Put(600, 1024, TWICE));
    play(rt, &mut line, 1028, Step::Put(5000, 1024, Ok(())));
    for i in 2u64..1025 {
        let first = line.take();
        assert!(rt; first.is_some_and(|pair| pair.stamp == i), "stamp {i}");
    }
    play(rt, &mut line, 2052, Step::Take(pair(5000, 1024)));
    play(rt, &mut line, 2053, Step::Size(0));
    Ok(())
}

fn makes<W: WaitingLine + Drop>(rt: &impl Abort, heap: Global) {
    assert_eq!(rt; W::make(heap, 0).err(), Some(MakeRefusal::Capacity));
    assert_eq!(rt; W::make(heap, 1025).err(), Some(MakeRefusal::Capacity));
    assert_eq!(rt; W::make(heap, u64::MAX).err(), Some(MakeRefusal::Capacity));
    assert_eq!(rt; W::make(heap, 1).err(), None);
    assert_eq!(rt; W::make(heap, 1024).err(), None);
}

#[test]
fn refusals_have_numbers(rt: HostRuntime) {
    assert_eq!(rt; LineRefusal::Full.number(), 71);
    assert_eq!(rt; LineRefusal::Twice.number(), 72);
    assert_eq!(rt; MakeRefusal::Capacity.number(), Some(13));
    assert_eq!(rt; MakeRefusal::NoMemory.number(), None);
}

#[test]
fn heap_line_of_three(rt: HostRuntime) -> Result<(), Fail> {
    three::<HeapLine>(&rt, rt.alloc())
}

#[test]
fn sorted_line_of_three(rt: HostRuntime) -> Result<(), Fail> {
    three::<SortedLine>(&rt, rt.alloc())
}

#[test]
fn heap_line_of_one(rt: HostRuntime) -> Result<(), Fail> {
    one::<HeapLine>(&rt, rt.alloc())
}

#[test]
fn sorted_line_of_one(rt: HostRuntime) -> Result<(), Fail> {
    one::<SortedLine>(&rt, rt.alloc())
}

#[test]
fn heap_line_of_many(rt: HostRuntime) -> Result<(), Fail> {
    many::<HeapLine>(&rt, rt.alloc())
}

#[test]
fn sorted_line_of_many(rt: HostRuntime) -> Result<(), Fail> {
    many::<SortedLine>(&rt, rt.alloc())
}

#[test]
fn heap_line_made(rt: HostRuntime) {
    makes::<HeapLine>(&rt, rt.alloc());
}

#[test]
fn sorted_line_made(rt: HostRuntime) {
    makes::<SortedLine>(&rt, rt.alloc());
}
