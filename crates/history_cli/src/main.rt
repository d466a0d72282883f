// Reads a history from standard input and prints what the link answered. The first argument chooses the link's parts: heap-step, heap-jump,
// sorted-step or sorted-jump. Without it they are a heap and the jumping clock.

#![tactic(auto)]

mod parts;
mod printed;

use anyhow::anyhow;
use history_lines::lines::LONGEST;
use parts::Parts;
use printed::run_with;
use std::env;
use std::io::Read;

// One byte more than is answered tells an input that is too long.
const LOOKED_AT: u64 = LONGEST as u64 + 1;

fn chosen(rt: &HostRuntime) -> anyhow::Result<Parts> {
    match env::args(rt)?.nth(1) {
        None => Ok(Parts::default()),
        Some(word) => Ok(word.as_str().parse()?),
    }
}

fn answer(rt: &HostRuntime) -> anyhow::Result<()> {
    let parts = chosen(rt)?;
    let mut input = Vec::new(rt.alloc());
    rt.stdin().take(LOOKED_AT).read_to_end(&mut input)?;
    let mut out = String::new(rt.alloc());
    let done = run_with(parts, rt.alloc(), input.as_slice(), &mut out);
    rt.print(out)?;
    done.map_err(|_| anyhow!("there is no memory for this history"))
}

fn main(rt: HostRuntime) -> anyhow::Result<()> {
    answer(&rt)
}
