use crate::drive::{Both, moves_all};
use crate::rules::{keeps_the_rules, moves_to_more_boards, opens};
use chains::{Chains, Link};
use line::{Letter, Line};
use std::alloc::Global;
use std::process::Abort;
use std::test::Fail;
use wire::opening::Open;

fn alike(
    rt: &impl Abort,
    heap: Global,
    boards: u32,
    places: usize,
    steps: u32,
) -> Result<(), Fail> {
    let mut letters = vec![in heap; Letter::BLANK; places]?;
    let mut links = vec![in heap; Link::BLANK; places]?;
    let mut line = Line::over(&mut letters);
    let mut chains = Chains::over(&mut links);
    line.open(boards)?;
    chains.open(boards)?;
    Both::of(&mut line, &mut chains).steps(rt, boards, steps)
}

// One board or all of them, with places for few messages, so that many sends find the wire full, and for
// many, so that long lists wait.
#[test]
fn both_wires_answer_alike(rt: HostRuntime) -> Result<(), Fail> {
    let heap = rt.alloc();
    alike(&rt, heap, 1, 5, 2_000)?;
    alike(&rt, heap, 2, 40, 10_000)?;
    alike(&rt, heap, 3, 1, 2_000)?;
    alike(&rt, heap, 3, 1_325, 20_000)?;
    alike(&rt, heap, 16, 600, 20_000)?;
    alike(&rt, heap, 16, 0, 500)
}

// All that waits on a wire of 4 boards moves to another, as a third that is sent the same tells.
fn moves_between<A: Open, B: Open>(
    rt: &impl Abort,
    heap: Global,
    source: &mut A,
    target: &mut B,
) -> Result<(), Fail> {
    let mut letters = vec![in heap; Letter::BLANK; 600]?;
    let mut expected = Line::over(&mut letters);
    source.open(4)?;
    target.open(4)?;
    expected.open(4)?;
    moves_all(rt, source, target, &mut expected)
}

#[test]
fn all_messages_move_to_another_wire(rt: HostRuntime) -> Result<(), Fail> {
    let heap = rt.alloc();
    let mut letters = vec![in heap; Letter::BLANK; 600]?;
    let mut links = vec![in heap; Link::BLANK; 600]?;
    let mut line = Line::over(&mut letters);
    let mut chains = Chains::over(&mut links);
    moves_between(&rt, heap, &mut line, &mut chains)?;
    moves_between(&rt, heap, &mut chains, &mut line)
}

#[test]
fn a_wire_moves_only_to_as_many_boards(rt: HostRuntime) -> Result<(), Fail> {
    let heap = rt.alloc();
    let mut letters = vec![in heap; Letter::BLANK; 8]?;
    let mut links = vec![in heap; Link::BLANK; 8]?;
    let mut line = Line::over(&mut letters);
    let mut chains = Chains::over(&mut links);
    line.open(2)?;
    chains.open(4)?;
    moves_to_more_boards(&rt, &mut line, &mut chains)
}

#[test]
fn each_wire_keeps_the_rules(rt: HostRuntime) -> Result<(), Fail> {
    let heap = rt.alloc();
    let mut letters = vec![in heap; Letter::BLANK; 3]?;
    let mut links = vec![in heap; Link::BLANK; 3]?;
    keeps_the_rules(&rt, &mut Line::over(&mut letters))?;
    keeps_the_rules(&rt, &mut Chains::over(&mut links))
}

#[test]
fn a_wire_opens_for_at_most_16_boards(rt: HostRuntime) -> Result<(), Fail> {
    let heap = rt.alloc();
    let mut letters = vec![in heap; Letter::BLANK; 8]?;
    let mut links = vec![in heap; Link::BLANK; 8]?;
    opens(&rt, &mut Line::over(&mut letters))?;
    opens(&rt, &mut Chains::over(&mut links))
}
