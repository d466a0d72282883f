// A stamp with the number of the packet that it was given to.
#[derive(Clone, Copy, PartialEq, Eq, Debug)]
pub struct Pair {
    pub stamp: u64,
    pub packet: u64,
}
