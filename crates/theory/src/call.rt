// A call of a board, as a value.

#[derive(Clone, Copy, PartialEq, Eq, Debug)]
pub enum Call {
    Make { board: u32, slot: u32, size: u32 },
    Set { board: u32, slot: u32, number: u32 },
}
