// Where the bytes of an operand stand in host storage: on one page or on two.
#![tactic(auto)]

// An operand in pieces: count bytes from first on, and the others from second on.
#[derive(Clone, Copy, PartialEq, Eq)]
pub struct Pieces {
    pub first: u32,
    pub count: u32,
    pub second: u32,
}
