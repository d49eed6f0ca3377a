// A pack's settings, and the counts of a collection.

#[derive(Clone, Copy, PartialEq, Eq, Debug, Default)]
pub struct Settings {
    pub boards: u32,
    pub cells: u32,
    pub entries: u32,
    pub credit: u32,
}

// What a board counts from the moment that it enters a collection.
#[derive(Clone, Copy, PartialEq, Eq, Debug, Default)]
pub struct Round {
    pub sent: u32,
    pub answered: u32,
    pub started: bool,
    pub shoves: u32,
    pub ends: u32,
    pub taken: u64,
}

// The figures of a collection, or of one board's sweep: the tally of the kept records, the marking
// messages taken, the cells freed.
#[derive(Clone, Copy, PartialEq, Eq, Debug, Default)]
pub struct Figures {
    pub kept: u64,
    pub messages: u64,
    pub freed: u64,
}

// A collection that waits for reports of sweeps: for how many, and the figures so far.
#[derive(Clone, Copy, PartialEq, Eq, Debug)]
pub struct Closing {
    pub awaited: u32,
    pub figures: Figures,
}

// What board 0 keeps as the lead: the collection that it is closing, and whether a further one is wished for.
#[derive(Clone, Copy, PartialEq, Eq, Debug, Default)]
pub struct Lead {
    pub closing: Option<Closing>,
    pub wish: bool,
}
