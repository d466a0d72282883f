// A link before it is opened: it takes sessions, and has all the memory that the open link will need.
ghost use Rattle.std.specs.Prelude.{◌≡◌, ℕ, ◌≤◌, true, vec_len, vec_capacity};
ghost use Rattle.std.specs.VecDeque.{deque_len, deque_capacity};
ghost use Rattle.slot_clock.specs.Calls.{no_zero};
ghost use Rattle.tick_machine.specs.Slots.{round_length};

use crate::session::Session;
use std::collections::VecDeque;
use tick_machine::packet::{Departed, Packet};

// That a draft is of some configuration is asked where it is needed, and is no invariant here: it speaks of what W means, and so would ask a bound of W.
// A type may not ask more of whoever names it than it did, and this one asks no bound of W.
#[derive(Drop)]
pub struct Draft<W> {
    pub(crate) waiting: W,
    pub(crate) number: u64,
    pub(crate) largest: u64,
    // the sum of the weights
    pub(crate) round: u64,
    // a Vec, whose memory is had at the making; the slot clock takes it as a slice
    pub(crate) weights: Vec<u64>,
    // memory for the records that the open link begins with
    pub(crate) sessions: Vec<Session>,
    pub(crate) table: Vec<Packet>,
    pub(crate) left: VecDeque<Departed>,
    pub(crate) out: Vec<u64>,
    ghost weighted: { 64 ≤ vec_capacity weights },
    ghost recorded: { 64 ≤ vec_capacity sessions },
    // that there is room for so many is said field by field: each of these facts stands once here, and once in the open link
    ghost tabled: { 1024 ≤ vec_capacity table },
    ghost listed: { 1024 ≤ deque_capacity left },
    ghost noted: { 1024 ≤ vec_capacity out },
    ghost some: { 1 ≤ vec_len weights },
    ghost few: { vec_len weights ≤ 64 },
    ghost sum: { round ≡ round_length weights.items },
    ghost light: { round ≤ 4096 },
    ghost weighty: { no_zero weights.items ≡ true },
    ghost unrecorded: { vec_len sessions ≡ 0 },
    ghost untabled: { vec_len table ≡ 0 },
    ghost unlisted: { deque_len left ≡ 0 },
    ghost unnoted: { vec_len out ≡ 0 },
}

mod calls;
