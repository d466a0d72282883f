// Packets, the line that sends them, and what a slip says.

// An accepted packet: its number, whose it is, its length in bytes, the caller's tag, its stamp and its latest tick.
#[derive(Clone, Copy, PartialEq, Eq, Debug)]
pub struct Packet {
    pub number: u64,
    pub session: u64,
    pub size: u64,
    pub tag: u64,
    pub stamp: u64,
    pub latest: u64,
}

// What the line sends, if it is not free: a packet that was started at a tick and has some bytes left.
#[derive(Clone, Copy, PartialEq, Eq, Debug)]
pub struct Sending {
    pub packet: Packet,
    pub started: u64,
    pub rest: u64,
}

// A packet that has left, with its starting tick and its leaving tick.
#[derive(Clone, Copy, PartialEq, Eq, Debug)]
pub struct Departed {
    pub packet: Packet,
    pub started: u64,
    pub left: u64,
}

// What a slip says, as plain numbers. It settles nothing: only the slip itself does.
#[derive(Clone, Copy, PartialEq, Eq, Debug)]
pub struct SlipCopy {
    pub link: u64,
    pub packet: u64,
    pub session: u64,
    pub size: u64,
    pub tag: u64,
    pub started: u64,
    pub left: u64,
}
