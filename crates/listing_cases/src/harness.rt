// A pack over packrun's memory, made anew for every file. It is set up here as there: a function for both would have
// to hand out what it lends.
use boards::memory::Memory;
use chains::{Chains, Link};
use line::{Letter, Line};
use listing::fault::Refusal;
use listing::list::{LEAST_PLACE, list};
use pack::pack::Pack;
use std::alloc::Global;
use std::test::Fail;
use tally::OldestWeek;
use theory::memory::{Cell, Entry};
use theory::message::Held;
use wire::opening::Open;

// As many messages as packrun's wire has room for.
const ROOM: usize = 1325;

// The bytes of the listing, or the refusal, of a pack over this wire. The outer answer is of the test itself: memory,
// and the wire.
fn listing_over<W: Open + Drop>(
    heap: Global,
    mut wire: W,
    input: &[u8],
) -> Result<Result<Vec<u8>, Refusal>, Fail> {
    let mut cells = vec![in heap; Cell::Value(0); 4096]?;
    let mut entries = vec![in heap; Entry::FREE; 512]?;
    let mut free = vec![in heap; 0; 512]?;
    let mut held = vec![in heap; Held::BLANK; 256]?;
    let mut place = vec![in heap; 0; LEAST_PLACE]?;
    wire.open(16)?;
    let memory = Memory {
        cells: &mut cells,
        entries: &mut entries,
        free: &mut free,
        held: &mut held,
    };
    let mut pack = Pack::over(memory, wire, OldestWeek);
    match list(&mut pack, input, &mut place) {
        Ok(n) => Ok(Ok(place[0..n].to_vec(heap)?)),
        Err(refusal) => Ok(Err(refusal)),
    }
}

// Over the line, as packrun's.
pub(crate) fn listing_of(heap: Global, input: &[u8]) -> Result<Result<Vec<u8>, Refusal>, Fail> {
    let mut letters = vec![in heap; Letter::BLANK; ROOM]?;
    listing_over(heap, Line::over(&mut letters), input)
}

// Over the chains.
pub(crate) fn listing_over_chains(
    heap: Global,
    input: &[u8],
) -> Result<Result<Vec<u8>, Refusal>, Fail> {
    let mut links = vec![in heap; Link::BLANK; ROOM]?;
    listing_over(heap, Chains::over(&mut links), input)
}
