use history::run::run;
use jump_clock::jump::JumpClock;
use slot_clock::clock::SlotClock;
use slot_clock::step::StepClock;
use std::alloc::Global;
use std::process::Abort;
use std::test::Fail;
use waiting_line::heap_line::HeapLine;
use waiting_line::line::WaitingLine;
use waiting_line::sorted_line::SortedLine;

// A history, and what is printed.
const CASES: [(&str, &str); 5] = [
    // The first small link of the rules: both sessions send, and a settled packet is filed.
    (
        "link 7 10 8 2\nsess 1\nopen\narr 0 6 100\narr 1 2 101\nat 2\nfigs 0\nfigs 1\ntake\nfiled\nat 3\narr 1 1 102\nat 20\narr 0 1 103\narr 0 11 104\nat 1\ntots\n",
        "link 7\nsess 1\nopen 3\narr 0 7 17\narr 1 5 15\nat 2 1\nfigs 6 0 2 -2 6\nfigs 2 2 0 2 0\ntook 1 1 101 0 2\nfiled 1\nat 3 0\narr 2 8 18\nat 20 2\narr 3 9 30\nrefused 33\nrefused 41\ntots 1 0 2 0 1 0\n",
    ),
    // The second: a packet that leaves at its latest tick.
    (
        "link 1 10 1 1\nsess 1\nopen\narr 0 10 5\narr 1 1 6\nat 1\narr 1 1 6\nat 11\ntake\nback\ntake\nfiled\ntake",
        "link 1\nsess 1\nopen 2\narr 0 18 28\nrefused 34 71\nat 1 0\narr 1 1 11\nat 11 2\ntook 0 0 5 0 10\nback 0\ntook 1 1 6 10 11\nfiled 1\ntook none\n",
    ),
    // A session that comes back is not served for the time it was away.
    (
        "link 1 10 1 1\nsess 1\nopen\narr 0 10 5\nat 10\narr 1 3 6\nfigs 1",
        "link 1\nsess 1\nopen 2\narr 0 18 28\nat 10 1\narr 1 23 24\nfigs 3 0 0 0 3\n",
    ),
    // Each fault.
    (
        "open\n\nlinks 1\nlink 7 10 8\nlink 7 10  2\nlink 07 10 8 2\n link 7 10 8 2\n \nlink 7 10 18446744073709551616 2x\nlink 7 10 8 2\nlink 7 10 8 2\ntake",
        "text 62 1 1\ntext 61 3 1\ntext 63 4 1\ntext 64 5 11\ntext 64 6 6\ntext 61 7 1\ntext 61 8 1\ntext 64 9 11\nlink 7\ntext 62 11 1\ntext 62 12 1\n",
    ),
    // Refusals before and after the opening; a slip that is in hand at the end is returned.
    (
        "link 65536 10 1 1\nlink 0 0 1 1\nlink 0 10 0 1\nlink 0 10 1 0\nlink 0 10 1 1\nsess 0\nsess 4096\nsess 1\nopen\narr 2 1 1\narr 0 0 1\narr 0 11 1\narr 0 4 9\narr 1 1 8\ntake\nfiled\nback\nat 4\nfigs 2\ntake\ntake\nat 3\nat 17592186044417",
        "refused 11\nrefused 12\nrefused 13\nrefused 14\nlink 0\nrefused 21\nrefused 23\nsess 1\nopen 2\nrefused 31\nrefused 32\nrefused 33\narr 0 6 16\nrefused 34 71\ntook none\ntext 62 16 1\ntext 62 17 1\nat 4 1\nrefused 31\ntook 0 0 9 0 4\ntext 62 21 1\nrefused 41\nrefused 42\nback 0\n",
    ),
];

fn prints<W: WaitingLine + Drop, S: SlotClock + Drop>(
    rt: &impl Abort,
    heap: Global,
    input: &[u8],
    expected: &str,
    pair: &str,
) -> Result<(), Fail> {
    let mut out = String::new(heap);
    run::<W, S>(heap, input, &mut out)?;
    assert_eq!(rt; out.as_str(), expected, "{pair}");
    Ok(())
}

fn all_print(rt: &impl Abort, heap: Global, input: &[u8], expected: &str) -> Result<(), Fail> {
    prints::<HeapLine, StepClock>(rt, heap, input, expected, "heap, step")?;
    prints::<HeapLine, JumpClock>(rt, heap, input, expected, "heap, jump")?;
    prints::<SortedLine, StepClock>(rt, heap, input, expected, "sorted, step")?;
    prints::<SortedLine, JumpClock>(rt, heap, input, expected, "sorted, jump")
}

#[test]
fn histories(rt: HostRuntime) -> Result<(), Fail> {
    for (input, expected) in CASES {
        all_print(&rt, rt.alloc(), input.as_bytes(), expected)?;
    }
    Ok(())
}

#[test]
fn nothing(rt: HostRuntime) -> Result<(), Fail> {
    all_print(&rt, rt.alloc(), &[], "")
}

#[test]
fn longest(rt: HostRuntime) -> Result<(), Fail> {
    let empty_lines = vec![in rt.alloc(); b'\n'; 65536]?;
    all_print(&rt, rt.alloc(), empty_lines.as_slice(), "")
}

#[test]
fn too_long(rt: HostRuntime) -> Result<(), Fail> {
    let empty_lines = vec![in rt.alloc(); b'\n'; 65537]?;
    all_print(&rt, rt.alloc(), empty_lines.as_slice(), "text 60 0 0\n")
}
