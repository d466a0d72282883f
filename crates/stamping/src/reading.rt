// Lines of the input: weights, and steps.
use crate::outcome::Refused;
use slot_clock::refusal::ClockRefusal;
use std::alloc::{AllocError, Global};
use std::fmt;
use std::io::{BufRead, BufReader};
use std::str::FromStr;

#[derive(Clone, Copy)]
pub enum Step {
    // a packet of a session: session, length
    Packet(u64, u64),
    // so many ticks pass
    Run(u64),
    // a packet whose stamp is given by hand
    Put(u64),
}

// What is wrong with a line.
#[derive(Clone, Copy)]
pub enum Fault {
    Weight,
    NotTwoFields,
    Ticks,
    Stamp,
    Session,
    Length,
}

impl fmt::Display for Fault {
    fn fmt<W: fmt::Write>(&self, f: &mut fmt::Formatter<W>) -> fmt::Result {
        f.write_str(match self {
            Fault::Weight => "a weight is no number below 2^64",
            Fault::NotTwoFields => "it is not two fields with a space between",
            Fault::Ticks => "the ticks are no number below 2^64",
            Fault::Stamp => "the stamp is no number below 2^64",
            Fault::Session => "the session is no number below 2^64",
            Fault::Length => "the length is no number below 2^64",
        })
    }
}

fn number(text: &str, fault: Fault) -> Result<u64, Fault> {
    text.parse::<u64>().map_err(|_| fault)
}

// The step that a line says.
impl FromStr for Step {
    type Err = Fault;

    fn from_str(text: &str) -> Result<Step, Fault> {
        let (left, right) = text.split_once(' ').ok_or(Fault::NotTwoFields)?;
        match left {
            "run" => Ok(Step::Run(number(right, Fault::Ticks)?)),
            "put" => Ok(Step::Put(number(right, Fault::Stamp)?)),
            _ => Ok(Step::Packet(number(left, Fault::Session)?, number(right, Fault::Length)?)),
        }
    }
}

// Why a line makes no clocks.
#[derive(Clone, Copy)]
pub enum NoClocks {
    Fault(Fault),
    Refused(Refused),
    NoMemory(AllocError),
}

impl From<AllocError> for NoClocks {
    fn from(e: AllocError) -> NoClocks {
        NoClocks::NoMemory(e)
    }
}

impl From<ClockRefusal> for NoClocks {
    fn from(e: ClockRefusal) -> NoClocks {
        NoClocks::Refused(Refused::from(e))
    }
}

// The weights that a line lists, none if it is empty.
pub fn weights_of(heap: Global, text: &str) -> Result<Vec<u64>, NoClocks> {
    if text.is_empty() {
        return Ok(Vec::new(heap));
    }
    text.split(' ')
        .map(|word| number(word, Fault::Weight).map_err(NoClocks::Fault))
        .try_collect(heap)
}

// The lines of standard input.
pub fn input_lines(rt: &HostRuntime) -> anyhow::Result<Vec<String>> {
    BufReader::new(rt.alloc(), rt.stdin())?
        .lines(rt.alloc())
        .map(|text| text.map_err(anyhow::Error::from))
        .try_collect(rt.alloc())
}
