// packrun: reads a file of calls on standard input and prints its listing.
#![tactic(auto)]

use boards::memory::Memory;
use line::{Letter, Line};
use listing::list::{LEAST_PLACE, MOST_INPUT, list};
use pack::pack::Pack;
use std::io::{Read, Write};
use tally::Cells;
use theory::memory::{Cell, Entry};
use theory::message::Held;
use wire::opening::Open;

// What the wire of 16 boards with the most credit needs.
const ROOM: usize = 1325;

// One byte more than a file may have, so that a longer one is seen to be too long.
const BUFFER: usize = MOST_INPUT + 1;

fn main(rt: HostRuntime) -> anyhow::Result<()> {
    let heap = rt.alloc();
    // a vector that is full grows once more before it sees the end, so this one keeps a byte that is never read
    let mut input = Vec::with_capacity(heap, BUFFER + 1)?;
    rt.stdin().take(BUFFER as u64).read_to_end(&mut input)?;
    let mut cells = vec![in heap; Cell::Value(0); 4096]?;
    let mut entries = vec![in heap; Entry::FREE; 512]?;
    let mut free = vec![in heap; 0; 512]?;
    let mut held = vec![in heap; Held::BLANK; 256]?;
    let mut letters = vec![in heap; Letter::BLANK; ROOM]?;
    let mut place = vec![in heap; 0; LEAST_PLACE]?;
    let mut line = Line::over(&mut letters);
    line.open(16)?;
    // set up here as in the tests of the listing: a function for both would have to hand out what it lends
    let memory = Memory {
        cells: &mut cells,
        entries: &mut entries,
        free: &mut free,
        held: &mut held,
    };
    let mut pack = Pack::over(memory, line, Cells);
    // a file that is too long prints nothing
    if let Ok(length) = list(&mut pack, &input, &mut place) {
        rt.stdout().write_all(&place[0..length])?;
    }
    Ok(())
}
