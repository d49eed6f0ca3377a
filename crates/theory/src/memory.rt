// What a board's memory holds.

// A record by its board and its entry there: the number board * 65536 + entry of a cell.
#[derive(Clone, Copy, PartialEq, Eq, Debug)]
pub struct Ref {
    pub board: u16,
    pub entry: u16,
}

#[derive(Clone, Copy, PartialEq, Eq, Debug)]
pub enum Cell {
    Value(u32),
    Ref(Ref),
}

// Who asked for a mark: an entry of a board, or that board's roots.
#[derive(Clone, Copy, PartialEq, Eq, Debug)]
pub enum Parent {
    Root { board: u16 },
    Entry(Ref),
}

// What a marked record knows: its parent, how many of its cells it has gone through, and how many answers it
// is still owed.
#[derive(Clone, Copy, PartialEq, Eq, Debug)]
pub struct Mark {
    pub parent: Parent,
    pub gone: u32,
    pub owing: u32,
}

// A record of `size` cells from `place` on; a free entry has size 0. No variant for it: the table is one lent
// slice of structs whose fields are changed in place, and what is read of a free entry is that size.
#[derive(Clone, Copy, PartialEq, Eq, Debug)]
pub struct Entry {
    pub size: u32,
    pub place: u32,
    pub mark: Option<Mark>,
}

impl Entry {
    pub const FREE: Entry = Entry {
        size: 0,
        place: 0,
        mark: None,
    };
}

// Where a board stands in a collection.
#[derive(Clone, Copy, PartialEq, Eq, Debug)]
pub enum Mode {
    Run,
    Mark,
    Done,
}

// How a board's last remote operation ended: 0, or 1 where its offset was not below the size.
#[derive(Clone, Copy, PartialEq, Eq, Debug)]
pub enum Outcome {
    Done,
    PastEnd,
}
