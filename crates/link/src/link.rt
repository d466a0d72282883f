// An open link, over any waiting line and any slot clock.
ghost use Rattle.std.specs.Prelude.{ℕ, ◌+◌, ◌≤◌, vec_len, vec_capacity};
ghost use Rattle.tick_machine.specs.Life.{on_line};
ghost use Rattle.std.specs.VecDeque.{deque_len, deque_capacity};
ghost use Rattle.link.specs.Busy.{at_work};

use crate::session::Session;
use std::collections::VecDeque;
use tick_machine::packet::{Departed, Packet, Sending};

// Its memory was had when its draft was made: no call asks for more.
#[derive(Drop)]
pub struct Link<W, S> {
    waiting: W,
    slots: S,
    number: u64,
    largest: u64,
    sessions: Vec<Session>,
    clock: u64,
    count: u64,
    // what is sent; none, if the line is free
    line: Option<Sending>,
    // the waiting packets, by rising numbers; searched from the first on, as `place` promises the first place in any list, sorted or not, which no search
    // by halves could keep
    table: Vec<Packet>,
    left: VecDeque<Departed>,
    out: Vec<u64>,
    filed: u64,
    returned: u64,
    // that there is room for so many is said field by field: each of these facts stands once here, and once in the draft
    ghost tabled: { 1024 ≤ vec_capacity table },
    ghost listed: { 1024 ≤ deque_capacity left },
    ghost noted: { 1024 ≤ vec_capacity out },
    ghost inside: { vec_len table + on_line line + deque_len left + vec_len out ≤ 1024 },
    ghost busy: { 1 ≤ at_work line },
}

mod arrivals;
mod moves;
mod opening;
mod readings;
mod slips;
