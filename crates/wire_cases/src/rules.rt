// Single answers of a wire, each as the rules have it.
use crate::draws::message;
use std::process::Abort;
use std::test::Fail;
use theory::fault::{PackFault, WireFault};
use theory::message::{Message, Pair};
use wire::Wire;
use wire::opening::Open;
use wire::transfer::transfer;

fn pair(from: u32, to: u32) -> Pair {
    Pair { from, to }
}

// A wire of 2 boards and 3 places is filled. The pair is looked at before the room.
pub(crate) fn fills<W: Wire>(rt: &impl Abort, wire: &mut W) -> Result<(), Fail> {
    wire.send(pair(0, 1), message(10))?;
    wire.send(pair(0, 1), message(11))?;
    wire.send(pair(1, 1), message(12))?;
    assert_eq!(rt; wire.send(pair(0, 0), message(13)), Err(WireFault::Full));
    assert_eq!(rt; wire.send(pair(2, 0), message(13)), Err(WireFault::NoPair));
    assert_eq!(rt; wire.send(pair(0, 2), message(13)), Err(WireFault::NoPair));
    assert_eq!(rt; wire.len(pair(0, 1)), 2);
    assert_eq!(rt; wire.len(pair(1, 1)), 1);
    assert_eq!(rt; wire.len(pair(1, 0)), 0);
    assert_eq!(rt; wire.len(pair(2, 1)), 0);
    assert_eq!(rt; wire.total(), 3);
    Ok(())
}

// The same wire is emptied: first in, first out on each pair.
pub(crate) fn empties<W: Wire>(rt: &impl Abort, wire: &mut W) -> Result<(), Fail> {
    assert_eq!(rt; wire.take(pair(0, 1)), Ok(message(10)));
    assert_eq!(rt; wire.take(pair(2, 1)), Err(WireFault::NoPair));
    assert_eq!(rt; wire.take(pair(1, 2)), Err(WireFault::NoPair));
    assert_eq!(rt; wire.take(pair(1, 0)), Err(WireFault::Empty));
    wire.send(pair(0, 1), message(14))?;
    assert_eq!(rt; wire.take(pair(0, 1)), Ok(message(11)));
    assert_eq!(rt; wire.take(pair(0, 1)), Ok(message(14)));
    assert_eq!(rt; wire.take(pair(0, 1)), Err(WireFault::Empty));
    assert_eq!(rt; wire.take(pair(1, 1)), Ok(message(12)));
    assert_eq!(rt; wire.total(), 0);
    Ok(())
}

// Both, on a wire that is given: one that is lent, say.
pub(crate) fn fills_and_empties<W: Wire + Drop>(rt: &impl Abort, mut wire: W) -> Result<(), Fail> {
    fills(rt, &mut wire)?;
    empties(rt, &mut wire)
}

// A wire of 3 places, by itself and lent.
pub(crate) fn keeps_the_rules<W: Open>(rt: &impl Abort, wire: &mut W) -> Result<(), Fail> {
    wire.open(2)?;
    fills(rt, wire)?;
    empties(rt, wire)?;
    fills_and_empties(rt, wire)
}

fn row_is_empty<W: Wire>(rt: &impl Abort, wire: &W, from: u32, boards: u32) {
    for to in 0..boards {
        assert_eq!(rt; wire.len(pair(from, to)), 0);
    }
}

// A wire with nothing on it.
pub(crate) fn is_empty<W: Wire>(rt: &impl Abort, wire: &W, boards: u32, capacity: usize) {
    assert_eq!(rt; wire.boards(), boards);
    assert_eq!(rt; wire.capacity(), capacity);
    assert_eq!(rt; wire.total(), 0);
    for from in 0..boards {
        row_is_empty(rt, wire, from, boards);
    }
}

// A wire that joins 2 boards moves to one that joins 4, and not the other way.
pub(crate) fn moves_to_more_boards<A: Wire, B: Wire>(
    rt: &impl Abort,
    two: &mut A,
    four: &mut B,
) -> Result<(), Fail> {
    two.send(pair(1, 0), message(20))?;
    four.send(pair(1, 0), message(21))?;
    assert_eq!(rt; transfer(four, two), Err(WireFault::NoPair));
    assert_eq!(rt; two.len(pair(1, 0)), 1);
    assert_eq!(rt; four.len(pair(1, 0)), 1);
    transfer(two, four)?;
    assert_eq!(rt; two.boards(), 2);
    assert_eq!(rt; two.total(), 0);
    assert_eq!(rt; four.take(pair(1, 0)), Ok(message(21)));
    assert_eq!(rt; four.take(pair(1, 0)), Ok(message(20)));
    Ok(())
}

// A wire of 8 places opens for 16 boards and not for 17, and again with nothing on it.
pub(crate) fn opens<W: Open>(rt: &impl Abort, wire: &mut W) -> Result<(), Fail> {
    wire.open(16)?;
    wire.send(pair(15, 0), Message::Want)?;
    assert_eq!(rt; wire.open(17), Err(PackFault::Setting));
    assert_eq!(rt; wire.boards(), 16);
    assert_eq!(rt; wire.len(pair(15, 0)), 1);
    wire.open(16)?;
    is_empty(rt, wire, 16, 8);
    Ok(())
}
