// The whole input on two clocks and two waiting lines, told line by line.
ghost use Rattle.std.specs.Prelude.{◌≡◌, true, length, IfOk, OnOk};

use crate::both::{Agreement, Clocks, Lines};
use crate::playing::Bench;
use crate::reading::{NoClocks, Step, weights_of};
use anyhow::anyhow;
use slot_clock::clock::SlotClock;
use std::alloc::Global;
use std::{fmt, io};
use waiting_line::line::WaitingLine;
use waiting_line::pair::Pair;

const CAPACITY: u64 = 6;

// A packet that a line sends, if it has one.
#[derive(Clone, Copy)]
struct Sent(Option<Pair>);

impl fmt::Display for Sent {
    fn fmt<W: fmt::Write>(&self, f: &mut fmt::Formatter<W>) -> fmt::Result {
        match self.0 {
            Some(pair) => write!(f, "packet {} with stamp {}", pair.packet, pair.stamp),
            None => write!(f, "none"),
        }
    }
}

impl<C: SlotClock, D: SlotClock, V: WaitingLine, W: WaitingLine> Bench<C, D, V, W> {
    // V and what each session is owed.
    fn tell_clocks(&mut self, rt: &HostRuntime) -> io::Result<()> {
        let cursor = self.agreement.hear(self.clocks.cursor());
        print!(rt; "; V {cursor}, owed")?;
        for session in 0..self.sessions {
            if let Ok(bytes) = self.agreement.hear(self.clocks.owed(session)) {
                print!(rt; " {bytes}")?;
            }
        }
        println!(rt; "")
    }

    fn play_line(&mut self, rt: &HostRuntime, text: &str, line: usize) -> io::Result<()> {
        match text.parse::<Step>() {
            Ok(step) => {
                match self.step(step, line as u64) {
                    Ok(done) => print!(rt; "line {line}: {done}")?,
                    Err(refused) => print!(rt; "line {line} is refused: {refused}")?,
                }
                self.tell_clocks(rt)
            }
            Err(fault) => println!(rt; "line {line} is passed over: {fault}"),
        }
    }

    // Takes every packet, in the order of sending. (Counted, since `hear` is told both lines' answers as one value, which a `while let` on a packet takes apart.)
    #[tactic(auto, using(crate::proofs::Takes::length_of_rest))]
    fn send_all(&mut self, rt: &HostRuntime) -> io::Result<()>
        ensures { OnOk result (length (V.WaitingLine.pairs self.new.lines.one) ≡ 0) }
    {
        for _sent in 0..self.lines.size() {
            let both = self.lines.take();
            println!(rt;
                "  heap line: {}; sorted line: {}",
                Sent(both.one),
                Sent(both.other)
            )?;
            self.agreement.hear(both);
        }
        Ok(())
    }
}

// The clocks that a line's weights make, how many weights there are, and the line's number.
#[derive(Drop)]
struct Started<C: SlotClock, D: SlotClock> {
    clocks: Clocks<C, D>,
    sessions: u64,
    line: usize,
}

fn clocks_of<C: SlotClock + Drop, D: SlotClock + Drop>(
    heap: Global,
    text: &str,
    line: usize,
) -> Result<Started<C, D>, NoClocks> {
    let weights = weights_of(heap, text)?;
    let clocks = Clocks::make(weights.as_slice())?;
    let sessions = weights.len() as u64;
    Ok(Started {
        clocks,
        sessions,
        line,
    })
}

// The first line whose weights are accepted makes the clocks.
fn start<C: SlotClock + Drop, D: SlotClock + Drop>(
    rt: &HostRuntime,
    texts: &[String],
) -> anyhow::Result<Started<C, D>> {
    for (before, text) in texts.iter().enumerate() {
        let line = before + 1;
        match clocks_of(rt.alloc(), text.as_str(), line) {
            Ok(started) => return Ok(started),
            Err(NoClocks::Refused(refused)) => println!(rt; "line {line} is refused: {refused}")?,
            Err(NoClocks::Fault(fault)) => println!(rt; "line {line} is passed over: {fault}")?,
            Err(NoClocks::NoMemory(e)) => return Err(anyhow::Error::from(e)),
        }
    }
    Err(anyhow!("no line has weights for a clock"))
}

// The whole input. Whatever it says, the two clocks and the two lines agree throughout.
pub fn session<
    C: SlotClock + Drop,
    D: SlotClock + Drop,
    V: WaitingLine + Drop,
    W: WaitingLine + Drop,
>(rt: &HostRuntime, texts: &[String]) -> anyhow::Result<bool>
    ensures { IfOk result (λ agreed. agreed ≡ true) }
{
    let Started {
        clocks,
        sessions,
        line,
    } = start::<C, D>(rt, texts)?;
    println!(rt; "line {line}: {sessions} sessions; lines for {CAPACITY} packets")?;
    let Ok(lines) = Lines::<V, W>::make(rt.alloc(), CAPACITY) else {
        return Err(anyhow!("no waiting line could be made"));
    };
    let mut bench = Bench {
        clocks,
        lines,
        sessions,
        agreement: Agreement::new(),
    };
    for (before, text) in texts.iter().enumerate().skip(line) {
        bench.play_line(rt, text.as_str(), before + 1)?;
    }
    println!(rt; "in the order of sending:")?;
    bench.send_all(rt)?;
    Ok(bench.agreement.holds())
}
